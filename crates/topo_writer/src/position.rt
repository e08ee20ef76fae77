// Arcs as lists of positions.
ghost use Rattle.std.specs.Prelude.{◌≡◌, ◌++◌, ◌∷◌, [], OnOk, flat_map, map, ℤ, if◌then◌else◌, ◌-ℤ◌};
ghost use Rattle.std.specs.Fmt.{signed_decimal};
ghost use Rattle.agg_base.specs.Lists.{lists_of};
ghost use Rattle.topo_writer.specs.MapText.{commas, step_to, steps_from, positions_of, position_text, arc_text};

use agg_base::{NoMemory, print_signed};
use plane_edge::Point;

// How far a coordinate is from another one.
fn distance(from: i32, to: i32) -> i64
    ensures { result ≡ to -ℤ from }
{
    i64::from(to) - i64::from(from)
}

// Appends a position.
fn push_position(out: &mut Vec<u8>, x: i64, y: i64) -> Result<(), NoMemory>
    ensures { OnOk result (out.new.items ≡ out.old.items ++ position_text (x, y)) }
{
    out.push(b'[')?;
    print_signed(out, i128::from(x))?;
    out.push(b',')?;
    print_signed(out, i128::from(y))?;
    out.push(b']')?;
    Ok(())
}

// Appends the position that tells a point behind another point.
fn push_step(
    out: &mut Vec<u8>,
    is_relative: bool,
    before: Point,
    point: Point,
) -> Result<(), NoMemory>
    ensures { OnOk result (out.new.items ≡ out.old.items ++ position_text (step_to is_relative before point)) }
{
    if is_relative {
        push_position(
            out,
            distance(before.x, point.x),
            distance(before.y, point.y),
        )
    } else {
        push_position(out, i64::from(point.x), i64::from(point.y))
    }
}

// Appends the positions of the points that stand behind the first, each behind a comma.
fn push_steps(
    out: &mut Vec<u8>,
    is_relative: bool,
    first: Point,
    rest: &[Point],
) -> Result<(), NoMemory>
    ensures { OnOk result (out.new.items ≡ out.old.items ++ flat_map (λ s. 44 ∷ position_text s) (steps_from is_relative first rest.now)) }
{
    let mut before = first;
    for point in rest {
        out.push(b',')?;
        push_step(out, is_relative, before, *point)?;
        before = *point;
    }
    Ok(())
}

// Appends the positions of an arc.
fn push_points(out: &mut Vec<u8>, is_relative: bool, arc: &[Point]) -> Result<(), NoMemory>
    ensures { OnOk result (out.new.items ≡ out.old.items ++ commas position_text (positions_of is_relative arc.now)) }
{
    let [first, rest @ ..] = arc else {
        return Ok(());
    };
    push_position(out, i64::from(first.x), i64::from(first.y))?;
    push_steps(out, is_relative, *first, rest)
}

// Appends an arc.
fn push_arc(out: &mut Vec<u8>, is_relative: bool, arc: &[Point]) -> Result<(), NoMemory>
    ensures { OnOk result (out.new.items ≡ out.old.items ++ arc_text is_relative arc.now) }
{
    out.push(b'[')?;
    push_points(out, is_relative, arc)?;
    out.push(b']')?;
    Ok(())
}

// Appends arcs, each behind a comma.
fn push_more_arcs(out: &mut Vec<u8>, is_relative: bool, arcs: &[Vec<Point>]) -> Result<(), NoMemory>
    ensures { OnOk result (out.new.items ≡ out.old.items ++ flat_map (λ arc. 44 ∷ arc_text is_relative arc) (lists_of arcs.now)) }
{
    for arc in arcs {
        out.push(b',')?;
        push_arc(out, is_relative, arc)?;
    }
    Ok(())
}

/// Appends arcs with commas between them. Positions are absolute, or each one but the first of an arc is relative to the one before.
pub(crate) fn push_arcs(
    out: &mut Vec<u8>,
    is_relative: bool,
    arcs: &[Vec<Point>],
) -> Result<(), NoMemory>
    ensures { OnOk result (out.new.items ≡ out.old.items ++ commas (arc_text is_relative) (lists_of arcs.now)) }
{
    let [first, rest @ ..] = arcs else {
        return Ok(());
    };
    push_arc(out, is_relative, first)?;
    push_more_arcs(out, is_relative, rest)
}
