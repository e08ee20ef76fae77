// The lines that refuse a coverage.
ghost use Rattle.std.specs.Prelude.{◌≡◌, ◌≢◌, Some, IfOk};
ghost use Rattle.agg_base.specs.Texts.{text_of_words};
ghost use Rattle.coverage_check.specs.declared.fault.CoverFault.TheVariants.{Memory};
ghost use Rattle.generalise_steps.specs.FaultLines.{edge_words, spot_words, cover_line};

use agg_base::{NoMemory, Text};
use coverage_check::CoverFault;
use plane_edge::{Edge, Spot};
use std::alloc::Global;
use std::fmt;

/// An edge as its four numbers, the low end first, parted by spaces.
#[derive(Clone, Copy)]
pub struct EdgeWords(pub Edge);

impl fmt::Display for EdgeWords {
    ghost output = { λ e. Some (text_of_words (edge_words e.0)) };

    fn fmt<W: fmt::Write>(&self, f: &mut fmt::Formatter<W>) -> fmt::Result {
        let Edge { low, high } = self.0;
        write!(f, "{} {} {} {}", low.x, low.y, high.x, high.y)
    }
}

// A spot as its three numbers.
#[derive(Clone, Copy)]
struct SpotWords(Spot);

impl fmt::Display for SpotWords {
    ghost output = { λ s. Some (text_of_words (spot_words s.0)) };

    fn fmt<W: fmt::Write>(&self, f: &mut fmt::Formatter<W>) -> fmt::Result {
        let Spot { x, y, m } = self.0;
        write!(f, "at {x} {y} {m}")
    }
}

/// The line of a fault of a coverage.
#[tactic(auto, unfolding(crate::specs::FaultLines::cover_line))]
pub fn line_of(alloc: Global, fault: CoverFault) -> Result<Text, NoMemory>
    ensures line { IfOk result (λ line. line ≡ cover_line fault) }
    ensures real { IfOk result (λ _. fault ≢ Memory) }
{
    match fault {
        CoverFault::Crossing { e, f, spot } => {
            let (e, f, spot) = (EdgeWords(e), EdgeWords(f), SpotWords(spot));
            Text::of(
                alloc,
                format!(in alloc; "refused: coverage Crossing {e} {f} {spot}\n")?.as_str(),
            )
        }
        CoverFault::Shared { edge } => {
            let edge = EdgeWords(edge);
            Text::of(
                alloc,
                format!(in alloc; "refused: coverage Shared {edge}\n")?.as_str(),
            )
        }
        CoverFault::Overlap { a, b, spot } => {
            let spot = SpotWords(spot);
            Text::of(
                alloc,
                format!(in alloc; "refused: coverage Overlap {a} {b} {spot}\n")?.as_str(),
            )
        }
        CoverFault::Memory => Err(NoMemory),
    }
}
