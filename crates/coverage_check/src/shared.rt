// The least edge that is odd in three areas.
ghost use Rattle.std.specs.Prelude.{◌≡◌, IfSome, IfNone};
ghost use Rattle.plane_edge.specs.Edges.{is_same_edge};
ghost use Rattle.coverage_check.specs.Sharing.{IsShared, IsFirstShared};
ghost use Rattle.coverage_check.specs.Uses.{AreRisingUses, IsUsed};

use crate::usage::Use;
use plane_edge::Edge;

/// The least edge that is odd in three areas or more.
pub fn first_shared(uses: &[Use]) -> Option<Edge>
    requires { AreRisingUses uses.now }
    ensures found { IfSome result (λ e. IsFirstShared (IsUsed uses.now) e) }
    ensures none { IfNone result ((e : Edge) → ¬ IsShared (IsUsed uses.now) e) }
{
    for i in 2..uses.len() {
        if is_same(&uses[i - 2].edge, &uses[i].edge) {
            return Some(uses[i].edge);
        }
    }
    None
}

// Whether the edges are the same.
fn is_same(a: &Edge, b: &Edge) -> bool
    ensures { result ≡ is_same_edge a.now b.now }
{
    a == b
}
