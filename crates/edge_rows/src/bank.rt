// Rows from below upwards.
ghost use Rattle.std.specs.Prelude.{AllPairs};
ghost use Rattle.edge_rows.specs.Banks.{IsBefore};

use crate::row::Row;

/// Rows of which neither the low heights nor the tops fall.
#[derive(Drop)]
pub struct Bank {
    /// The rows.
    pub rows: Vec<Row>,
    ghost rising: { AllPairs IsBefore rows.items },
}
