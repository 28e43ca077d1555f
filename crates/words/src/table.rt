//! Rows that are a table.
ghost use Rattle.words.specs.Described.{IsTable};

use crate::rows::Rows;

/// Rows that are the table of the words that they accept: a state for each residual, numbered by the earliest word that
/// has it. No other rows are such a value.
#[derive(Clone, Copy)]
pub struct Table<'a> {
    pub rows: Rows<'a>,
    ghost is_table: { ∥ IsTable rows ∥₁ },
}
