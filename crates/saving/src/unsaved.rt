//! Why a table was not saved.
ghost use Rattle.std.specs.Prelude.{Some};
ghost use Rattle.saving.specs.Saved.{sentence};

use std::error::Error;
use std::fmt;

/// Why a table was not saved: it is over more than four sets, or the buffer is shorter than the text.
#[derive(Clone, Copy, PartialEq, Eq, Debug)]
pub enum Unsaved {
    TooManySets,
    NoBuffer,
}

impl fmt::Display for Unsaved {
    ghost output = { λ unsaved. Some (sentence unsaved) };

    fn fmt<W: fmt::Write>(&self, f: &mut fmt::Formatter<W>) -> fmt::Result {
        match self {
            Unsaved::TooManySets => write!(f, "the table is over more than four sets"),
            Unsaved::NoBuffer => write!(f, "the buffer is shorter than the text"),
        }
    }
}

impl Error for Unsaved {}
