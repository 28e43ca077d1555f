//! Why a call is refused.
ghost use Rattle.std.specs.Prelude.{◌≡◌};
ghost use Rattle.tray.specs.Refusals.{number_of, refusal_of, unsaved_of};

use saving::Unsaved;
use std::error::Error;
use std::fmt;
use tables::Unexplored;

/// The first check of a call that failed, with the number by which users know it.
#[derive(Clone, Copy, PartialEq, Eq, Debug)]
pub enum Refusal {
    /// The number of sets is not from 1 to 8.
    WrongSets = 1,
    /// The budget is not from 1 to 512.
    WrongBudget = 2,
    /// The depth is not from 1 to 16.
    WrongDepth = 3,
    /// Memory that the call was given is too short.
    NoMemory = 4,
    /// The book lacks the predicate.
    NoPredicate = 5,
    /// The number of sets differs from the predicate's places.
    WrongPlaces = 6,
    /// A set is not below the number of sets.
    NoSet = 7,
    /// An output buffer is too short.
    NoBuffer = 8,
    /// A table over more than four sets is not saved.
    TooManySets = 20,
    /// The tray holds as many tables as its depth.
    Full = 21,
    /// The tray holds too few tables.
    TooFewTables = 22,
    /// More states are met than the budget.
    TooManyStates = 23,
}

impl Refusal {
    /// The number of the check.
    pub fn number(self) -> u8
        ensures { result ≡ number_of self }
    {
        self as u8
    }
}

impl fmt::Display for Refusal {
    ghost use Rattle.std.specs.Prelude.{Some};
    ghost use Rattle.tray.specs.Messages.{refusal_text};

    ghost output = { λ why. Some (refusal_text why) };

    fn fmt<W: fmt::Write>(&self, f: &mut fmt::Formatter<W>) -> fmt::Result {
        f.write_str(match self {
            Refusal::WrongSets => "the number of sets is not from 1 to 8",
            Refusal::WrongBudget => "the budget is not from 1 to 512",
            Refusal::WrongDepth => "the depth is not from 1 to 16",
            Refusal::NoMemory => "memory that the call was given is too short",
            Refusal::NoPredicate => "the book lacks the predicate",
            Refusal::WrongPlaces => "the number of sets differs from the predicate's places",
            Refusal::NoSet => "a set is not below the number of sets",
            Refusal::NoBuffer => "an output buffer is too short",
            Refusal::TooManySets => "a table over more than four sets is not saved",
            Refusal::Full => "the tray holds as many tables as its depth",
            Refusal::TooFewTables => "the tray holds too few tables",
            Refusal::TooManyStates => "more states are met than the budget",
        })
    }
}

impl Error for Refusal {}

/// What an exploration met is the call's refusal.
impl From<Unexplored> for Refusal {
    ghost from_gives = { λ why r. r ≡ refusal_of why };

    fn from(why: Unexplored) -> Refusal {
        match why {
            Unexplored::NoRoom => Refusal::NoMemory,
            Unexplored::TooMany => Refusal::TooManyStates,
        }
    }
}

/// What stopped a save is the call's refusal.
impl From<Unsaved> for Refusal {
    ghost from_gives = { λ why r. r ≡ unsaved_of why };

    fn from(why: Unsaved) -> Refusal {
        match why {
            Unsaved::TooManySets => Refusal::TooManySets,
            Unsaved::NoBuffer => Refusal::NoBuffer,
        }
    }
}
