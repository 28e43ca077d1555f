//! Exploration, breadth first: one text for every kind of state.
ghost use Rattle.std.specs.Prelude.{◌≡◌, ◌+◌, ◌^◌, ◌<◌, ◌≤◌, length, MatchOption};
ghost use Rattle.tables.specs.Explored.{Explores, Past};
ghost use Rattle.tables.specs.Room.{Room, SameOwners};

use crate::kind::Kind;
use crate::memory::{Limits, Memory};
use std::error::Error;
use std::fmt;
use words::nth_column;

/// Why an exploration ended without a table.
#[derive(Clone, Copy, PartialEq, Eq, Debug)]
pub enum Unexplored {
    /// There are more than 8 sets, the budget is not from 1 to 512, or some memory is too short.
    NoRoom,
    /// More states than the budget are reached.
    TooMany,
}

impl fmt::Display for Unexplored {
    ghost use Rattle.std.specs.Prelude.{Some};
    ghost use Rattle.tables.specs.Messages.{unexplored_text};

    ghost output = { λ why. Some (unexplored_text why) };

    fn fmt<W: fmt::Write>(&self, f: &mut fmt::Formatter<W>) -> fmt::Result {
        match self {
            Unexplored::NoRoom => f.write_str("the memory or the limits leave no room to explore"),
            Unexplored::TooMany => f.write_str("more states than the budget are reached"),
        }
    }
}

impl Error for Unexplored {}

// An exploration under way: the kind and the limits, the memory that it was lent, and how many states were met.
#[derive(Drop)]
struct Search<'s, K: Kind> {
    kind: &'s K,
    limits: Limits,
    records: &'s mut [K::State],
    links: &'s mut [u16],
    rows: &'s mut [u16],
    met: usize,
    ghost room: { Room limits.sets limits.budget (length records.now) (length links.now) (length rows.now) },
    ghost few: { met ≤ limits.budget },
}

impl<K: Kind> Search<'_, K> {
    ghost use Rattle.tables.specs.Chart.{state_of, New, Charts, Extends, Finds, Follows, Onward};

    // The record of a state, among those met so far. It looks at each of them.
    fn find(&self, sought: K::State) -> Option<usize>
        ensures { MatchOption result (New self.now sought) (λ j. (j < self.now.met) × (state_of self.now j ≡ sought)) }
    {
        self.records[..self.met]
            .iter()
            .position(|record| self.kind.same(*record, sought))
    }

    // The record to which a column leads from record `at`. A state that was not met before is recorded, with its parent
    // and the column.
    fn follow(&mut self, at: usize, column: u8) -> Result<usize, Unexplored>
        requires { at < self.old.met }
        ensures onward { Onward self.old self.new }
        ensures rows { self.new.rows.now ≡ self.old.rows.now }
        ensures follows { Follows self.old at column self.new result }
    {
        let next = self.kind.step(self.records[at], column);
        if let Some(to) = self.find(next) {
            return Ok(to);
        }
        if self.met == self.limits.budget {
            return Err(Unexplored::TooMany);
        }
        let new = self.met;
        self.records[new] = next;
        self.links[2 * new] = at as u16;
        self.links[2 * new + 1] = u16::from(column);
        self.met += 1;
        Ok(new)
    }

    // Looks at the k-th column of record `at`, and writes where it leads.
    #[tactic(auto, using(crate::proofs::Steps::column_inside, crate::proofs::Steps::column_over))]
    fn explore_column(&mut self, at: usize, k: usize) -> Result<(), Unexplored>
        requires chart { Charts self.old at k }
        requires here { at < self.old.met }
        requires left { k < 2 ^ self.old.limits.sets }
        ensures onward { Onward self.old self.new }
        ensures extends { Extends self.old at (k + 1) self.new result }
    {
        let column = nth_column(self.limits.sets, k);
        let to = self.follow(at, column)?;
        let width = self.limits.width();
        self.rows[at * width + usize::from(column)] = to as u16;
        Ok(())
    }

    // Looks at all columns of record `at`, in their order, and writes its row and its mark.
    fn explore_row(&mut self, at: usize) -> Result<(), Unexplored>
        requires chart { Charts self.old at 0 }
        requires here { at < self.old.met }
        ensures onward { Onward self.old self.new }
        ensures extends { Extends self.old (at + 1) 0 self.new result }
    {
        let columns = self.limits.columns();
        for k in 0..columns {
            self.explore_column(at, k)?;
        }
        let accepts = self.kind.accepts(self.records[at]);
        self.rows[at * (columns + 1) + columns] = u16::from(accepts);
        Ok(())
    }

    // Looks at all records in their order, also at those that are met on the way, and answers how many there are.
    #[tactic(auto, using(crate::proofs::Whole::all_found))]
    fn explore_all(&mut self) -> Result<usize, Unexplored>
        requires { Charts self.old 0 0 }
        ensures onward { Onward self.old self.new }
        ensures finds { Finds self.old self.new result }
    {
        for at in 0..self.limits.budget {
            if at == self.met {
                break;
            }
            self.explore_row(at)?;
        }
        Ok(self.met)
    }
}

/// Explores a kind of state, breadth first from its start, columns in their order, and writes for each state met its
/// record, its parent and the column that met it (two links), and its row of next states with its mark.
///
/// Each state is sought among those met so far, so that m states over c columns cost at most m * m * c comparisons.
pub fn explore<K: Kind>(
    kind: &K,
    limits: Limits,
    memory: &mut Memory<K::State>,
) -> Result<usize, Unexplored>
    ensures found { Explores (K.Kind.moves kind.now) limits.sets limits.budget memory.old.records.now memory.old.links.now memory.old.rows.now memory.new.records.now memory.new.links.now memory.new.rows.now result }
    ensures owners { SameOwners memory.old memory.new }
    ensures past { Past limits.sets limits.budget memory.old.rows.now memory.new.rows.now }
{
    if !memory.has_room(limits) {
        return Err(Unexplored::NoRoom);
    }
    memory.records[0] = kind.start();
    let mut search = Search {
        kind,
        limits,
        records: memory.records,
        links: memory.links,
        rows: memory.rows,
        met: 1,
    };
    search.explore_all()
}
