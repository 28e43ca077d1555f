//! The limits of a text.

/// How many formulas may be open at once: one, and 32 that stand around it.
pub(crate) const MOST_OPEN: usize = 33;

/// How many sets a text is read over at most.
pub(crate) const MOST_SETS: usize = 8;
