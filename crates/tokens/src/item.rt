//! What the tokens of a text are to a book.
use crate::mark::Mark;
use books::Predicate;

/// What a piece of a text is.
#[derive(Clone, Copy, PartialEq, Eq, Debug)]
pub enum Sense {
    Mark(Mark),
    /// A name that the book has, and how many places the predicate has.
    Predicate { number: Predicate, places: u8 },
    /// A name that the book lacks.
    Unknown,
    /// A letter, and the number of its set.
    Variable { letter: u8, set: u16 },
    /// No token: a byte that is no letter, mark or blank, or letters that are neither one nor a name.
    Wrong,
}

/// A piece of a text, with its place: the byte where it begins.
#[derive(Clone, Copy, PartialEq, Eq, Debug)]
pub struct Item {
    pub place: u16,
    pub sense: Sense,
}
