//! The steps that build a formula.
use books::Predicate;

/// A building call of a tray. `Place` lists its sets at the front, as many as the predicate has places.
#[derive(Clone, Copy, PartialEq, Eq, Debug)]
pub enum Build {
    Place {
        predicate: Predicate,
        sets: [u8; 4],
        places: u8,
    },
    Single(u8),
    Negate,
    Both,
    Either,
    Hide(u8),
}

/// A building call, with the place of the mark, name or letter that asks for it.
#[derive(Clone, Copy, PartialEq, Eq, Debug)]
pub struct Step {
    pub place: u16,
    pub build: Build,
}

/// A variable where it stands in the text, with the set of its letter.
#[derive(Clone, Copy, PartialEq, Eq, Debug)]
pub struct Spot {
    pub place: u16,
    pub letter: u8,
    pub set: u16,
}
