//! What was found of the last word that each board recorded.
ghost use Rattle.std.specs.Prelude.{◌≡◌, None};
ghost use Rattle.trial.specs.Pasts.{last_of, LastIs};

use crate::finding::Finding;
use crate::recording::Board;

/// A recorded word that was examined: its board, its finding, and how many columns it has.
#[derive(Clone, Copy)]
pub struct Seen {
    pub board: Board,
    pub finding: Finding,
    pub columns: usize,
}

/// There are two boards, and a field for each needs no memory that could run out, as a map would.
#[derive(Clone, Copy)]
pub struct Past {
    adder: Option<Seen>,
    counter: Option<Seen>,
}

impl Past {
    /// Before any recording.
    pub fn new() -> Past
        ensures { (b : Board) → last_of result b ≡ None }
    {
        Past {
            adder: None,
            counter: None,
        }
    }

    /// The last word of a board, if it recorded one.
    pub fn last(&self, board: Board) -> Option<Seen>
        ensures { result ≡ last_of self.now board }
    {
        match board {
            Board::Adder => self.adder,
            Board::Counter => self.counter,
        }
    }

    /// Keeps a word in place of its board's last one.
    pub fn note(&mut self, seen: Seen)
        ensures { LastIs seen.board seen self.old self.new }
    {
        match seen.board {
            Board::Adder => self.adder = Some(seen),
            Board::Counter => self.counter = Some(seen),
        }
    }
}
