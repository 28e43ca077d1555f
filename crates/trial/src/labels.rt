//! How the boards and their sets are called, and how a set is drawn.
ghost use Rattle.std.specs.Prelude.{◌≡◌, ◌+◌, ◌<◌, true, false, [], ◌∷◌, map, All};
ghost use Rattle.trial.specs.declared.labels.Row.{Row};

use crate::past::Seen;
use crate::recording::Board;
use std::fmt;
use words::is_member;

/// How the sets of a board are called.
#[derive(Clone, Copy)]
pub struct Labels {
    pub board: &'static str,
    pub first: &'static str,
    pub second: &'static str,
    pub said: &'static str,
    pub truth: &'static str,
}

impl Board {
    pub fn labels(self) -> Labels {
        match self {
            Board::Adder => Labels {
                board: "Adder",
                first: "first input",
                second: "second input",
                said: "board's sum",
                truth: "true sum",
            },
            Board::Counter => Labels {
                board: "Batch counter",
                first: "count",
                second: "one more",
                said: "board's next count",
                truth: "true next count",
            },
        }
    }
}

/// A set of a word: its name, the set as a number, and a row of bits for so many columns, position 0 first.
#[derive(Clone, Copy)]
pub struct Row {
    pub name: &'static str,
    pub set: u64,
    pub columns: usize,
}

impl fmt::Display for Row {
    fn fmt<W: fmt::Write>(&self, f: &mut fmt::Formatter<W>) -> fmt::Result {
        let Row { name, set, columns } = *self;
        write!(f, "  {name:<18} {set:>6}  ")?;
        for p in 0..columns {
            f.write_char(if is_member(set, p) { '1' } else { '0' })?;
        }
        Ok(())
    }
}

impl Seen {
    /// The three sets of the word.
    pub fn rows(&self) -> [Row; 3]
        ensures sets { map (λ (row : Row). row.set) result ≡ self.now.finding.first ∷ self.now.finding.second ∷ self.now.finding.said ∷ [] }
        ensures columns { All (λ row. row.columns ≡ self.now.columns) result }
    {
        let names = self.board.labels();
        let columns = self.columns;
        [
            Row {
                name: names.first,
                set: self.finding.first,
                columns,
            },
            Row {
                name: names.second,
                set: self.finding.second,
                columns,
            },
            Row {
                name: names.said,
                set: self.finding.said,
                columns,
            },
        ]
    }

    /// The true sum, with a column more where the word has no room for it.
    pub fn true_row(&self) -> Row
        ensures set { result.set ≡ self.now.finding.truth }
        ensures room { self.now.finding.room ≡ true → result.columns ≡ self.now.columns }
        ensures no_room { self.now.finding.room ≡ false → self.now.columns < usize.MAX → result.columns ≡ self.now.columns + 1 }
    {
        Row {
            name: self.board.labels().truth,
            set: self.finding.truth,
            columns: if self.finding.room {
                self.columns
            } else {
                self.columns.saturating_add(1)
            },
        }
    }
}
