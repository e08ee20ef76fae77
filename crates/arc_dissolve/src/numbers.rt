// Numbers of arcs.
ghost use Rattle.std.specs.Prelude.{◌≡◌};
ghost use Rattle.ring_arcs.specs.Numbers.{number_of};
ghost use Rattle.arc_dissolve.specs.Holes.{first_arc};

/// The number of the arc that the index tells.
pub fn number_of(index: i64) -> usize
    ensures { result ≡ number_of index }
{
    if index < 0 {
        -(index + 1) as usize
    } else {
        index as usize
    }
}

/// The number of the first arc of the ring.
pub fn first_arc(ring: &[i64]) -> usize
    ensures { result ≡ first_arc ring.now }
{
    match ring.first() {
        Some(index) => number_of(*index),
        None => 0,
    }
}
