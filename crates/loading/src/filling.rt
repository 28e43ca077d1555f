//! Beginning a draft, and filling it row by row.
ghost use Rattle.std.specs.Prelude.{◌≡◌, ◌+◌, ◌≤◌, length};
ghost use Rattle.words.specs.Rows.{width};
ghost use Rattle.loading.specs.Drafts.{Begins, PutAt, TakesRow, room};

use crate::draft::Draft;
use crate::lines::{places_in, row_in};
use crate::unloaded::Unloaded;

/// The most rows of a draft.
pub(crate) const MOST_ROWS: u16 = 512;

// How many numbers a row over so many places has.
pub(crate) fn row_length(places: usize) -> usize
    requires { places ≤ 4 }
    ensures is { result ≡ width places }
    ensures small { result ≤ 17 }
{
    (1usize << places) + 1
}

// How much memory a draft over so many places needs.
pub(crate) fn room_for(places: u8) -> usize
    requires { places ≤ 4 }
    ensures is { result ≡ room places }
    ensures small { result ≤ 8704 }
{
    usize::from(MOST_ROWS) * row_length(usize::from(places))
}

// Puts numbers into a memory, from a place on.
pub(crate) fn put_at(memory: &mut [u16], base: usize, cells: &[u16])
    requires { base + length cells.now ≤ length memory.old }
    ensures { PutAt base cells.now memory.old memory.new }
{
    memory[base..base + cells.len()].copy_from_slice(cells);
}

impl Draft {
    /// Begins a draft by its line of names, which says how many places there are. Nothing is written.
    pub fn begin(line: &[u8], memory: &[u16]) -> Result<Draft, Unloaded>
        ensures { Begins line.now (length memory.now) result }
    {
        let Some(places) = places_in(line) else {
            return Err(Unloaded::WrongNames);
        };
        if memory.len() < room_for(places) {
            return Err(Unloaded::NoMemory);
        }
        Ok(Draft { places, rows: 0 })
    }

    /// Takes the line of the next state, and writes its row. A refused call changes nothing.
    pub fn row(&mut self, memory: &mut [u16], line: &[u8]) -> Result<(), Unloaded>
        ensures { TakesRow self.old memory.old line.now self.new memory.new result }
    {
        if memory.len() < room_for(self.places) {
            return Err(Unloaded::NoMemory);
        }
        if self.rows >= MOST_ROWS {
            return Err(Unloaded::Full);
        }
        let Some(cells) = row_in(line, self.places, self.rows) else {
            return Err(Unloaded::WrongLine);
        };
        let length = row_length(usize::from(self.places));
        put_at(memory, usize::from(self.rows) * length, &cells[..length]);
        self.rows += 1;
        Ok(())
    }

    /// Ends a draft without a book.
    pub fn discard(self) {
        let Draft { places: _, rows: _ } = self;
    }
}
