// The distinct edges of uses.
ghost use Rattle.std.specs.Prelude.{◌≡◌, map, IfOk};
ghost use Rattle.coverage_check.specs.Uses.{AreRisingUses, AreEdgesOf};

use crate::usage::Use;
use agg_base::NoMemory;
use plane_edge::Edge;
use std::alloc::Global;

// The edge of each use.
fn used_edges(alloc: Global, uses: &[Use]) -> Result<Vec<Edge>, NoMemory>
    ensures { IfOk result (λ edges. edges.items ≡ map (λ u. u.edge) uses.now) }
{
    let mut edges = Vec::new(alloc);
    for used in uses {
        edges.push(used.edge)?;
    }
    Ok(edges)
}

/// The edges of uses in rising order, each once.
pub fn edges_of(alloc: Global, uses: &[Use]) -> Result<Vec<Edge>, NoMemory>
    requires { AreRisingUses uses.now }
    ensures { IfOk result (λ edges. AreEdgesOf uses.now edges.items) }
{
    let mut edges = used_edges(alloc, uses)?;
    edges.dedup();
    Ok(edges)
}
