// The order of regions.
ghost use Rattle.std.specs.Prelude.{◌↔◌, IsTrue};
ghost use Rattle.greedy_start.specs.Orders.{IsInOrder};

// Whether the regions come in the order of their least areas: each area has a region that was met before it, or the next one.
pub(crate) fn is_in_order(region_of: &[u32]) -> bool
    ensures { IsTrue result ↔ IsInOrder region_of.now }
{
    let mut met = 0;
    for area in 0..region_of.len() {
        let region = region_of[area] as usize;
        if region > met {
            return false;
        }
        if region < met {
            continue;
        }
        met += 1;
    }
    true
}
