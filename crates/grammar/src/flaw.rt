//! What is wrong with a text.
ghost use Rattle.std.specs.Prelude.{◌≡◌};
ghost use Rattle.grammar.specs.Flaws.{flaw_number, flaw_layer};

use checks::layer_of;
use std::error::Error;
use std::fmt;

/// The first check of a text that fails, with the number by which users know it.
#[derive(Clone, Copy, PartialEq, Eq, Debug)]
pub enum Flaw {
    /// The memory for steps is too short for the text.
    NoRoom = 4,
    /// The text is longer than 1,024 bytes.
    TooLong = 9,
    /// Something that is no token: one byte that cannot stand in a claim, or letters that form no name or variable.
    NoToken = 10,
    /// The text ends before the formula is complete.
    Unfinished = 11,
    /// A formula stands inside more than 32 others.
    TooDeep = 12,
    /// A token that cannot stand here: the formula is complete, or wants one of another kind.
    NotDue = 13,
    /// The book has no predicate of this name.
    UnknownName = 14,
    /// There are more variables than sets.
    TooManyVariables = 15,
}

/// A flaw, with the byte of the text where it is found.
#[derive(Clone, Copy, PartialEq, Eq, Debug)]
pub struct Flawed {
    pub flaw: Flaw,
    pub place: usize,
}

impl Flaw {
    /// The number of the check.
    pub fn number(self) -> u8
        ensures { result ≡ flaw_number self }
    {
        self as u8
    }

    /// The layer of the check.
    pub fn layer(self) -> u8
        ensures { result ≡ flaw_layer self }
    {
        layer_of(self.number())
    }
}

impl fmt::Display for Flaw {
    ghost use Rattle.std.specs.Prelude.{Some};
    ghost use Rattle.grammar.specs.Flaws.{flaw_text};

    ghost output = { λ why. Some (flaw_text why) };

    fn fmt<W: fmt::Write>(&self, f: &mut fmt::Formatter<W>) -> fmt::Result {
        f.write_str(match self {
            Flaw::NoRoom => "the memory for steps is too short for the text",
            Flaw::TooLong => "the text is longer than 1,024 bytes",
            Flaw::NoToken => "this is no mark, name, variable, space or line feed",
            Flaw::Unfinished => "the text ends before the formula is complete",
            Flaw::TooDeep => "a formula stands inside more than 32 others",
            Flaw::NotDue => "another kind of token is due here, or the formula is complete",
            Flaw::UnknownName => "the book has no predicate of this name",
            Flaw::TooManyVariables => "there are more variables than sets",
        })
    }
}

impl Error for Flaw {}
