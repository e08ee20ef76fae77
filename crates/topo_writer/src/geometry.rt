// Drawn regions as geometries.
ghost use Rattle.std.specs.Prelude.{◌≡◌, ◌++◌, ◌∷◌, [], OnOk, flat_map, All};
ghost use Rattle.std.specs.Fmt.{decimal, signed_decimal};
ghost use Rattle.std.specs.Str.{IsUtf8};
ghost use Rattle.json_text.specs.Strings.{escape};
ghost use Rattle.agg_base.specs.Lists.{lists_of, nested_of};
ghost use Rattle.topo_writer.specs.MapText.{commas, list_text, ring_text, polygon_text, geometry_text, more_geometries, geometries_text};

use agg_base::{NoMemory, print_signed};
use arc_dissolve::Shape;

// Appends indexes, each behind a comma.
fn push_more_indexes(out: &mut Vec<u8>, indexes: &[i64]) -> Result<(), NoMemory>
    ensures { OnOk result (out.new.items ≡ out.old.items ++ flat_map (λ index. 44 ∷ signed_decimal index) indexes.now) }
{
    for index in indexes {
        out.push(b',')?;
        print_signed(out, i128::from(*index))?;
    }
    Ok(())
}

// Appends indexes with commas between them.
fn push_indexes(out: &mut Vec<u8>, indexes: &[i64]) -> Result<(), NoMemory>
    ensures { OnOk result (out.new.items ≡ out.old.items ++ commas signed_decimal indexes.now) }
{
    let [first, rest @ ..] = indexes else {
        return Ok(());
    };
    print_signed(out, i128::from(*first))?;
    push_more_indexes(out, rest)
}

// Appends a ring.
fn push_ring(out: &mut Vec<u8>, indexes: &[i64]) -> Result<(), NoMemory>
    ensures { OnOk result (out.new.items ≡ out.old.items ++ ring_text indexes.now) }
{
    out.push(b'[')?;
    push_indexes(out, indexes)?;
    out.push(b']')?;
    Ok(())
}

// Appends rings, each behind a comma.
fn push_more_rings(out: &mut Vec<u8>, rings: &[Vec<i64>]) -> Result<(), NoMemory>
    ensures { OnOk result (out.new.items ≡ out.old.items ++ flat_map (λ ring. 44 ∷ ring_text ring) (lists_of rings.now)) }
{
    for ring in rings {
        out.push(b',')?;
        push_ring(out, ring)?;
    }
    Ok(())
}

// Appends rings with commas between them.
fn push_rings(out: &mut Vec<u8>, rings: &[Vec<i64>]) -> Result<(), NoMemory>
    ensures { OnOk result (out.new.items ≡ out.old.items ++ commas ring_text (lists_of rings.now)) }
{
    let [first, rest @ ..] = rings else {
        return Ok(());
    };
    push_ring(out, first)?;
    push_more_rings(out, rest)
}

// Appends a polygon.
fn push_polygon(out: &mut Vec<u8>, rings: &[Vec<i64>]) -> Result<(), NoMemory>
    ensures { OnOk result (out.new.items ≡ out.old.items ++ polygon_text (lists_of rings.now)) }
{
    out.push(b'[')?;
    push_rings(out, rings)?;
    out.push(b']')?;
    Ok(())
}

// Appends polygons, each behind a comma.
fn push_more_polygons(out: &mut Vec<u8>, polygons: &[Vec<Vec<i64>>]) -> Result<(), NoMemory>
    ensures { OnOk result (out.new.items ≡ out.old.items ++ flat_map (λ polygon. 44 ∷ polygon_text polygon) (nested_of polygons.now)) }
{
    for polygon in polygons {
        out.push(b',')?;
        push_polygon(out, polygon)?;
    }
    Ok(())
}

// Appends polygons with commas between them.
fn push_polygons(out: &mut Vec<u8>, polygons: &[Vec<Vec<i64>>]) -> Result<(), NoMemory>
    ensures { OnOk result (out.new.items ≡ out.old.items ++ commas polygon_text (nested_of polygons.now)) }
{
    let [first, rest @ ..] = polygons else {
        return Ok(());
    };
    push_polygon(out, first)?;
    push_more_polygons(out, rest)
}

// Appends a byte, with a backslash before a quote or a backslash.
fn push_byte(out: &mut Vec<u8>, byte: u8) -> Result<(), NoMemory>
    ensures { OnOk result (out.new.items ≡ out.old.items ++ escape (byte ∷ [])) }
{
    if byte == b'"' || byte == b'\\' {
        out.push(b'\\')?;
    }
    out.push(byte)?;
    Ok(())
}

// Appends a text with its quotes and backslashes escaped.
fn push_escaped(out: &mut Vec<u8>, text: &str) -> Result<(), NoMemory>
    ensures text { OnOk result (out.new.items ≡ out.old.items ++ escape text.now) }
    ensures utf8 { OnOk result (IsUtf8 text.now) }
{
    for byte in text.as_bytes() {
        push_byte(out, *byte)?;
    }
    Ok(())
}

// Appends the digits of a number.
fn push_number(out: &mut Vec<u8>, number: usize) -> Result<(), NoMemory>
    ensures { OnOk result (out.new.items ≡ out.old.items ++ decimal number) }
{
    print_signed(out, number as i128)
}

// Appends a region with its number.
fn push_geometry(out: &mut Vec<u8>, region: usize, shape: &Shape) -> Result<(), NoMemory>
    ensures text { OnOk result (out.new.items ≡ out.old.items ++ geometry_text region shape.now) }
    ensures utf8 { OnOk result (IsUtf8 shape.now.class) }
{
    out.extend_from_slice(b"{\"type\":\"MultiPolygon\",\"id\":")?;
    push_number(out, region)?;
    out.extend_from_slice(b",\"properties\":{\"class\":\"")?;
    push_escaped(out, shape.class.as_str())?;
    out.extend_from_slice(b"\"},\"arcs\":[")?;
    push_polygons(out, &shape.polygons)?;
    out.extend_from_slice(b"]}")?;
    Ok(())
}

// Appends the regions behind the first, each behind a comma.
fn push_more_geometries(out: &mut Vec<u8>, shapes: &[Shape]) -> Result<(), NoMemory>
    ensures text { OnOk result (out.new.items ≡ out.old.items ++ more_geometries 1 shapes.now) }
    ensures utf8 { OnOk result (All (λ shape. IsUtf8 shape.class) shapes.now) }
{
    let mut region = 0;
    for shape in shapes {
        region += 1;
        out.push(b',')?;
        push_geometry(out, region, shape)?;
    }
    Ok(())
}

/// Appends the regions with commas between them, numbered from 0. Their class texts are UTF-8.
pub(crate) fn push_geometries(out: &mut Vec<u8>, shapes: &[Shape]) -> Result<(), NoMemory>
    ensures text { OnOk result (out.new.items ≡ out.old.items ++ geometries_text shapes.now) }
    ensures utf8 { OnOk result (All (λ shape. IsUtf8 shape.class) shapes.now) }
{
    let [first, rest @ ..] = shapes else {
        return Ok(());
    };
    push_geometry(out, 0, first)?;
    push_more_geometries(out, rest)?;
    Ok(())
}
