//! Recorded words, one to a line: the kind of board, a space, and the columns in decimal with commas between them,
//! as `adder 7,0`. A `.` stands for a word without columns.
ghost use Rattle.std.specs.Prelude.{◌≡◌, ℕ, List, IfOk, IfErr};
ghost use Rattle.trial.specs.Recordings.{IsLine, IsRead, Lists, IsUnlisted, IsUnread};

use std::alloc::{AllocError, Global};
use std::error::Error;
use std::fmt;
use std::str::FromStr;

/// A board that takes two numbers and says what they add up to.
#[derive(Clone, Copy, PartialEq, Eq, Debug)]
pub enum Board {
    /// Adds its two inputs.
    Adder,
    /// Counts batches: the second number is one more, and the answer the next count.
    Counter,
}

#[derive(Drop)]
pub struct Recording {
    pub board: Board,
    pub word: Vec<u8>,
}

/// Why a line is no recording.
#[derive(Clone, Copy, PartialEq, Eq, Debug)]
pub enum Unread {
    NoBoard,
    NoColumns,
    NoMemory,
}

impl fmt::Display for Unread {
    fn fmt<W: fmt::Write>(&self, f: &mut fmt::Formatter<W>) -> fmt::Result {
        match self {
            Unread::NoBoard => write!(f, "the line begins with no board's name and a space"),
            Unread::NoColumns => write!(
                f,
                "the columns are not numbers up to 255 with commas between"
            ),
            Unread::NoMemory => write!(f, "there is no memory for it"),
        }
    }
}

impl Error for Unread {}

impl From<AllocError> for Unread {
    ghost use Rattle.trial.specs.declared.recording.Unread.TheVariants.{NoMemory};

    ghost from_gives = { λ _ e. e ≡ NoMemory };

    fn from(_error: AllocError) -> Unread {
        Unread::NoMemory
    }
}

impl FromStr for Board {
    type Err = Unread;

    ghost use Rattle.trial.specs.Boards.{IsNamed};

    ghost from_str_gives = { IsNamed };

    fn from_str(name: &str) -> Result<Board, Unread> {
        match name {
            "adder" => Ok(Board::Adder),
            "counter" => Ok(Board::Counter),
            _ => Err(Unread::NoBoard),
        }
    }
}

/// Reads one line, which begins with the name of the board.
pub fn read(alloc: Global, line: &str) -> Result<Recording, Unread>
    ensures ok { IfOk result (λ x. (text : List ℕ) × IsLine x.board text line.now × Lists text x.word.items) }
    ensures err { IfErr result (λ e. IsUnread line.now e) }
{
    let (name, columns) = line.split_once(' ').ok_or(Unread::NoBoard)?;
    let board = name.parse()?;
    let word = columns_in(alloc, columns)?;
    Ok(Recording { board, word })
}

// The columns that a text lists.
fn columns_in(alloc: Global, text: &str) -> Result<Vec<u8>, Unread>
    ensures ok { IfOk result (λ word. Lists text.now word.items) }
    ensures err { IfErr result (λ e. IsUnlisted text.now e) }
{
    if text == "." {
        return Ok(Vec::new(alloc));
    }
    text.split(',').map(column_in).try_collect(alloc)
}

// The column that a part is.
fn column_in(part: &str) -> Result<u8, Unread>
    ensures { IsRead part.now result }
{
    part.parse().map_err(|_| Unread::NoColumns)
}
