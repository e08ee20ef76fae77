// The text of a drawn map.
ghost use Rattle.std.specs.Prelude.{◌≡◌, ◌++◌, ◌∷◌, ◌<◌, ◌^◌, length, OnOk, IfOk, All};
ghost use Rattle.std.specs.Str.{IsUtf8};
ghost use Rattle.topo_reader.specs.Arcs.{is_relative};
ghost use Rattle.topo_writer.specs.MapText.{transform_text, map_text};
ghost use Rattle.topo_writer.specs.Drawing.{IsWritable, SpellsDrawn};

use crate::geometry::push_geometries;
use crate::position::push_arcs;
use agg_base::{NoMemory, Text};
use arc_dissolve::Regions;
use plane_edge::Frame;
use std::alloc::Global;

// Whether positions are relative to those before.
fn is_relative(frame: &Frame) -> bool
    ensures { result ≡ is_relative frame.now }
{
    match frame {
        Frame::Plain => false,
        Frame::Scaled { .. } => true,
    }
}

// Appends two numbers with a comma between them.
fn push_pair(out: &mut Vec<u8>, first: &Text, second: &Text) -> Result<(), NoMemory>
    ensures { OnOk result (out.new.items ≡ out.old.items ++ (first.now ++ 44 ∷ second.now)) }
{
    out.extend_from_slice(first.as_str().as_bytes())?;
    out.push(b',')?;
    out.extend_from_slice(second.as_str().as_bytes())?;
    Ok(())
}

// Appends a transform with these numbers.
fn push_numbers(
    out: &mut Vec<u8>,
    sx: &Text,
    sy: &Text,
    tx: &Text,
    ty: &Text,
) -> Result<(), NoMemory>
    ensures { OnOk result (out.new.items ≡ out.old.items ++ transform_text (Frame.Scaled sx.now sy.now tx.now ty.now)) }
{
    out.extend_from_slice(b"\"transform\":{\"scale\":[")?;
    push_pair(out, sx, sy)?;
    out.extend_from_slice(b"],\"translate\":[")?;
    push_pair(out, tx, ty)?;
    out.extend_from_slice(b"]},")?;
    Ok(())
}

// Appends the transform, where there is one.
#[tactic(auto, unfolding(crate::specs::MapText::transform_text))]
fn push_transform(out: &mut Vec<u8>, frame: &Frame) -> Result<(), NoMemory>
    ensures { OnOk result (out.new.items ≡ out.old.items ++ transform_text frame.now) }
{
    match frame {
        Frame::Plain => Ok(()),
        Frame::Scaled { sx, sy, tx, ty } => push_numbers(out, sx, sy, tx, ty),
    }
}

/// The bytes of a map: its transform, its shapes in order, and its arcs.
pub(crate) fn bytes_of(alloc: Global, regions: &Regions, frame: &Frame) -> Result<Vec<u8>, NoMemory>
    ensures layout { IfOk result (λ bytes. bytes.items ≡ map_text regions.now frame.now) }
    ensures utf8 { OnOk result (All (λ shape. IsUtf8 shape.class) regions.now.shapes) }
    ensures few { OnOk result (length regions.now.arcs < 2 ^ 64) }
{
    let mut out = Vec::new(alloc);
    out.extend_from_slice(b"{\"type\":\"Topology\",")?;
    push_transform(&mut out, frame)?;
    out.extend_from_slice(
        b"\"objects\":{\"regions\":{\"type\":\"GeometryCollection\",\"geometries\":[",
    )?;
    push_geometries(&mut out, &regions.shapes)?;
    out.extend_from_slice(b"]}},\"arcs\":[")?;
    push_arcs(&mut out, is_relative(frame), &regions.arcs)?;
    out.extend_from_slice(b"]}\n")?;
    Ok(out)
}

/// The text of a map as a topology of TopoJSON 1.0, without white space and ended by a line feed. Its object `regions`
/// has the shapes in order, each with its number as `id` and its class text as the property `class`. Its one refusal is
/// want of memory.
///
/// With a scaled frame each position of an arc but the first is relative to the one before, and the frame's texts
/// stand as the transform. With a plain frame positions are absolute. In a class text each quote and each backslash
/// has a backslash before it.
///
/// The frame is plain or its texts are numbers of JSON. There are at most 65,536 shapes with at most 2,097,152 steps
/// together. Each class text has 1 to 100 bytes, none of them below 32. Each arc has two or more points. Each ring is a
/// list of indexes in range, not empty, of arcs that each begin where the one before ends, and the first where the last
/// ends.
pub fn text(alloc: Global, regions: &Regions, frame: &Frame) -> Result<Vec<u8>, NoMemory>
    requires { IsWritable regions.now frame.now }
    ensures layout { IfOk result (λ bytes. bytes.items ≡ map_text regions.now frame.now) }
    ensures spelled { IfOk result (λ bytes. SpellsDrawn bytes.items regions.now frame.now) }
{
    let bytes = bytes_of(alloc, regions, frame)?;
    Ok(bytes)
}
