//! What a word that an adding board recorded says, beside what it should say.
ghost use Rattle.std.specs.Prelude.{◌≡◌, ◌+◌, ◌*◌, ◌%◌, ◌^◌, ◌≤◌, length, IfOk, Decides, slice_index};
ghost use Rattle.words.specs.Sets.{bit};
ghost use Rattle.words.specs.Words.{Columns, coded};
ghost use Rattle.words.specs.Relations.{Sum};
ghost use Rattle.trial.specs.Examined.{Examined, Corrected};

use books::{Standard, ask};
use std::alloc::{AllocError, Global};
use std::error::Error;
use std::fmt;
use words::{first_outside, is_member, number};

/// A recorded word, taken apart: sets 0 and 1 are the inputs, and set 2 is what the board makes of them.
#[derive(Clone, Copy)]
pub struct Finding {
    pub first: u64,
    pub second: u64,
    pub said: u64,
    /// What the inputs really add up to.
    pub truth: u64,
    /// Whether `sum` holds of what the board says.
    pub right: bool,
    /// Whether `sum` holds of the truth within the recorded columns.
    pub room: bool,
    /// Whether `sum` holds of the truth with one column more.
    pub whole: bool,
}

/// Why a word is not examined.
#[derive(Clone, Copy, PartialEq, Eq, Debug)]
pub enum Unfit {
    /// It has so many columns, which is more than 63.
    TooLong(usize),
    /// The column at this position is not below 8.
    NoColumn(usize),
    NoMemory,
}

impl fmt::Display for Unfit {
    fn fmt<W: fmt::Write>(&self, f: &mut fmt::Formatter<W>) -> fmt::Result {
        match self {
            Unfit::TooLong(columns) => write!(
                f,
                "the word has length {columns}, and at most 63 can be examined"
            ),
            Unfit::NoColumn(at) => write!(f, "the column at position {at} is not below 8"),
            Unfit::NoMemory => write!(f, "there is no memory for the word"),
        }
    }
}

impl Error for Unfit {}

impl From<AllocError> for Unfit {
    ghost use Rattle.trial.specs.declared.finding.Unfit.TheVariants.{NoMemory};

    ghost from_gives = { λ _ e. e ≡ NoMemory };

    fn from(_error: AllocError) -> Unfit {
        Unfit::NoMemory
    }
}

// Whether `sum` holds of the three sets of a word.
fn sums(word: &[u8]) -> bool
    ensures { Columns 3 word.now → Decides result (Sum (coded 0 word.now) (coded 1 word.now) (coded 2 word.now)) }
{
    ask(&Standard, Standard::SUM, word).unwrap_or(false)
}

// The column at a position: the inputs of a word there, none past its end, and that bit of `sum`.
fn corrected_column(word: &[u8], sum: u64, p: usize) -> u8
    ensures { result ≡ bit 0 (slice_index word.now p) + 2 * bit 1 (slice_index word.now p) + 4 * bit p sum }
{
    let inputs = word.get(p).copied().unwrap_or(0);
    (inputs & 3) + 4 * u8::from(is_member(sum, p))
}

// The word of so many columns that has the inputs of another and the output `sum`.
fn corrected(alloc: Global, word: &[u8], sum: u64, columns: usize) -> Result<Vec<u8>, AllocError>
    ensures { IfOk result (λ v. Corrected word.now sum columns v.items) }
{
    (0..columns)
        .map(|p| corrected_column(word, sum, p))
        .collect(alloc)
}

// Whether `sum` holds of a word's inputs and of as much of `sum` as so many columns have room for.
fn sums_within(alloc: Global, word: &[u8], sum: u64, columns: usize) -> Result<bool, AllocError>
    ensures { IfOk result (λ b. length word.now ≤ columns → Decides b (Sum (coded 0 word.now) (coded 1 word.now) (sum % 2 ^ columns))) }
{
    Ok(sums(&corrected(alloc, word, sum, columns)?))
}

// One set of a word that has at most 64 columns, as a number.
fn set_of(word: &[u8], set: u8) -> u64
    ensures { length word.now ≤ 64 → result ≡ coded set word.now }
{
    number(word, set).unwrap_or(0)
}

/// Takes a recorded word apart, and asks the standard book about what the board says and about the truth.
pub fn examine(alloc: Global, word: &[u8]) -> Result<Finding, Unfit>
    ensures { Examined word.now result }
{
    if word.len() > 63 {
        return Err(Unfit::TooLong(word.len()));
    }
    if let Some(at) = first_outside(word, 3) {
        return Err(Unfit::NoColumn(at));
    }
    let first = set_of(word, 0);
    let second = set_of(word, 1);
    let truth = first + second;
    Ok(Finding {
        first,
        second,
        said: set_of(word, 2),
        truth,
        right: sums(word),
        room: sums_within(alloc, word, truth, word.len())?,
        whole: sums_within(alloc, word, truth, word.len() + 1)?,
    })
}
