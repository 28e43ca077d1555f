//! Why a saved table is not loaded.
ghost use Rattle.std.specs.Prelude.{◌≡◌};
ghost use Rattle.loading.specs.Numbers.{number_of, unloaded_layer};

use checks::layer_of;
use std::error::Error;
use std::fmt;

/// The first check that failed, with the number by which users know it.
#[derive(Clone, Copy, PartialEq, Eq, Debug)]
pub enum Unloaded {
    /// Memory that the call was given is too short.
    NoMemory = 4,
    /// A name is not three lower-case letters.
    NoName = 10,
    /// The first line is not a line of names.
    WrongNames = 16,
    /// A line, or a value in it, is malformed.
    WrongLine = 17,
    /// A next state is not below the number of rows.
    NoState = 18,
    /// A state and the state that follows it by column 0 do not accept alike.
    Unsettled = 19,
    /// The draft has no row.
    NoRow = 24,
    /// The draft has 512 rows already.
    Full = 25,
}

impl Unloaded {
    /// The number of the check.
    pub fn number(self) -> u8
        ensures { result ≡ number_of self }
    {
        self as u8
    }

    /// The layer of the check.
    pub fn layer(self) -> u8
        ensures { result ≡ unloaded_layer self }
    {
        layer_of(self.number())
    }
}

impl fmt::Display for Unloaded {
    ghost use Rattle.std.specs.Prelude.{Some};
    ghost use Rattle.loading.specs.Numbers.{unloaded_text};

    ghost output = { λ why. Some (unloaded_text why) };

    fn fmt<W: fmt::Write>(&self, f: &mut fmt::Formatter<W>) -> fmt::Result {
        f.write_str(match self {
            Unloaded::NoMemory => "memory that the call was given is too short",
            Unloaded::NoName => "the name is not three lower-case letters",
            Unloaded::WrongNames => "the first line is not a line of names",
            Unloaded::WrongLine => "a line or a value in it is malformed",
            Unloaded::NoState => "a next state is not below the number of rows",
            Unloaded::Unsettled => "a state and the one that column 0 leads to do not accept alike",
            Unloaded::NoRow => "the draft has no row",
            Unloaded::Full => "the draft has 512 rows already",
        })
    }
}

impl Error for Unloaded {}
