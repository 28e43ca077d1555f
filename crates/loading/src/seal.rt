//! Sealing a draft as a loaded book.
ghost use Rattle.std.specs.Prelude.{◌≡◌, ◌≢◌, ℕ, Decides, ◌*◌, ◌^◌, ◌<◌, ◌≤◌, MatchOption, length, take};
ghost use Rattle.words.specs.Rows.{width, next_of, mark_of};
ghost use Rattle.loading.specs.Drafts.{Checked, LeadsOut, Unsettles, room, seal_checks};
ghost use Rattle.books.specs.Names.{IsName};
ghost use Rattle.tray.specs.Checks.{AllPass};
ghost use Rattle.loading.specs.Sealing.{Holds, Seals};

use crate::draft::Draft;
use crate::filling::{put_at, room_for, row_length};
use crate::loaded::Loaded;
use crate::unloaded::Unloaded;
use words::{Rows, cell};

/// A draft that was not sealed, and why.
pub struct Unsealed {
    pub why: Unloaded,
    pub draft: Draft,
}

// Whether bytes are three lower-case letters.
fn is_name(name: &[u8]) -> bool
    ensures { Decides result (IsName name.now) }
{
    name.len() == 3 && name.iter().all(|byte| byte.is_ascii_lowercase())
}

// The mark of a row as it stands in the memory.
fn mark(rows: &Rows, row: usize) -> u16
    requires { row ≤ 65535 }
    ensures { result ≡ mark_of rows.now.places rows.now.cells.now row }
{
    cell(rows.cells, row * rows.width() + rows.columns())
}

// A next state of a row as it stands in the memory.
fn next(rows: &Rows, row: usize, column: usize) -> u16
    requires { (row ≤ 65535) × (column ≤ 65535) }
    ensures { result ≡ next_of rows.now.places rows.now.cells.now row column }
{
    cell(rows.cells, row * rows.width() + column)
}

// The first row whose mark is neither 0 nor 1.
fn first_wrong_mark(rows: &Rows) -> Option<u16>
    ensures { MatchOption result ((r : ℕ) → r < rows.now.states → 1 < mark_of rows.now.places rows.now.cells.now r → ⊥) (λ r. (r < rows.now.states) × (1 < mark_of rows.now.places rows.now.cells.now r)) }
{
    (0..rows.states).find(|row| mark(rows, usize::from(*row)) > 1)
}

// The first column that leads from a row to no row.
fn column_out(rows: &Rows, row: u16) -> Option<usize>
    ensures { MatchOption result ((c : ℕ) → c < 2 ^ rows.now.places → next_of rows.now.places rows.now.cells.now row c < rows.now.states) (λ c. (c < 2 ^ rows.now.places) × (rows.now.states ≤ next_of rows.now.places rows.now.cells.now row c)) }
{
    (0..rows.columns()).find(|column| next(rows, usize::from(row), *column) >= rows.states)
}

// Whether some column leads from a row to no row.
fn leads_out(rows: &Rows, row: u16) -> bool
    ensures { Decides result (LeadsOut rows.now.places rows.now.states rows.now.cells.now row) }
{
    column_out(rows, row).is_some()
}

// The first row from which a column leads to no row.
fn row_out(rows: &Rows) -> Option<u16>
    ensures { MatchOption result ((r : ℕ) → r < rows.now.states → LeadsOut rows.now.places rows.now.states rows.now.cells.now r → ⊥) (λ r. (r < rows.now.states) × LeadsOut rows.now.places rows.now.states rows.now.cells.now r) }
{
    (0..rows.states).find(|row| leads_out(rows, *row))
}

// The first row that does not accept like the one that column 0 leads to.
fn first_unsettled(rows: &Rows) -> Option<u16>
    ensures { MatchOption result ((r : ℕ) → r < rows.now.states → Unsettles rows.now.places rows.now.cells.now r → ⊥) (λ r. (r < rows.now.states) × Unsettles rows.now.places rows.now.cells.now r) }
{
    (0..rows.states).find(|row| {
        let here = usize::from(*row);
        let following = usize::from(next(rows, here, 0));
        mark(rows, following) != mark(rows, here)
    })
}

impl Loaded {
    // Takes the rows of a draft that passed its checks, under a name.
    fn fill(&mut self, draft: &Draft, memory: &[u16], name: &[u8])
        requires pass { AllPass (seal_checks draft.now memory.now name.now) }
        requires named { IsName name.now }
        ensures { Holds draft.now memory.now name.now self.new }
    {
        let Loaded {
            name: own,
            places,
            states,
            cells,
        } = self;
        let used = usize::from(draft.rows) * row_length(usize::from(draft.places));
        *own = [name[0], name[1], name[2]];
        *places = draft.places;
        *states = draft.rows;
        put_at(cells, 0, &memory[..used]);
    }
}

impl Draft {
    // The checks of seal.
    fn may_seal(&self, memory: &[u16], name: &[u8]) -> Result<(), Unloaded>
        ensures { Checked (seal_checks self.now memory.now name.now) result }
    {
        if memory.len() < room_for(self.places) {
            return Err(Unloaded::NoMemory);
        }
        if !is_name(name) {
            return Err(Unloaded::NoName);
        }
        if self.rows < 1 {
            return Err(Unloaded::NoRow);
        }
        let rows = Rows {
            places: self.places,
            states: self.rows,
            cells: memory,
        };
        if first_wrong_mark(&rows).is_some() {
            return Err(Unloaded::WrongLine);
        }
        if row_out(&rows).is_some() {
            return Err(Unloaded::NoState);
        }
        if first_unsettled(&rows).is_some() {
            return Err(Unloaded::Unsettled);
        }
        Ok(())
    }

    /// Ends the draft: its table goes whole into the place, as the book's one predicate under the name. A draft that is
    /// refused comes back, and nothing is written.
    pub fn seal(self, memory: &[u16], name: &[u8], place: &mut Loaded) -> Result<(), Unsealed>
        ensures { Seals self memory.now name.now place.old place.new result }
    {
        if let Err(why) = self.may_seal(memory, name) {
            return Err(Unsealed { why, draft: self });
        }
        place.fill(&self, memory, name);
        self.discard();
        Ok(())
    }
}
