//! The control record of a tray, and where its tables lie.
ghost use Rattle.std.specs.Prelude.{◌≡◌, ℕ, ◌+◌, ◌-◌, ◌*◌, ◌<◌, ◌≤◌, length, drop, slice_index, slice_set};
ghost use Rattle.words.specs.Rows.{width};
ghost use Rattle.words.specs.Described.{language_of};
ghost use Rattle.tables.specs.Tabulated.{Elsewhere};
ghost use Rattle.tray.specs.View.{slot, size_of, rows_of, moved, Within, Stands};
ghost use Rattle.tables.specs.Room.{Room};
ghost use Rattle.tray.specs.Aside.{Aside, HiddenAside};
ghost use Rattle.tray.specs.Flipped.{Flipped};

use hiding::{StateSet, tabulate_hidden};
use tables::{Counts, Kind, Limits, Memory, Unexplored, tabulate};
use words::{Rows, Table};

/// The settings of a tray, how many tables it holds, and how many states each of them has, lowest table first.
#[derive(Clone, Copy)]
pub struct Control {
    pub sets: u8,
    pub budget: usize,
    pub depth: usize,
    pub count: usize,
    pub sizes: [u16; 16],
}

// How many numbers a row over so many sets has.
fn row_length(sets: usize) -> usize
    requires { sets ≤ 8 }
    ensures is { result ≡ width sets }
    ensures small { result ≤ 257 }
{
    (1usize << sets) + 1
}

// How many numbers a slot has: a row for each state of the budget.
pub(crate) fn room_for(sets: usize, budget: usize) -> usize
    requires sets { sets ≤ 8 }
    requires budget { budget ≤ 512 }
    ensures is { result ≡ budget * width sets }
    ensures small { result ≤ 131584 }
{
    budget * row_length(sets)
}

impl Control {
    // How many numbers a row has.
    fn row_length(&self) -> usize
        requires { self.now.sets ≤ 8 }
        ensures is { result ≡ width self.now.sets }
        ensures small { result ≤ 257 }
    {
        row_length(usize::from(self.sets))
    }

    // How many numbers a slot has.
    pub(crate) fn slot_length(&self) -> usize
        requires sets { self.now.sets ≤ 8 }
        requires budget { self.now.budget ≤ 512 }
        ensures is { result ≡ slot self.now }
        ensures small { result ≤ 131584 }
    {
        room_for(usize::from(self.sets), self.budget)
    }

    // The rows of the table in slot k.
    pub(crate) fn rows<'t>(&self, tables: &'t [u16], k: usize) -> Rows<'t>
        requires { Within self.now k (length tables.now) }
        ensures places { result.places ≡ self.now.sets }
        ensures states { result.states ≡ size_of self.now k }
        ensures cells { result.cells.now ≡ rows_of self.now tables.now k }
    {
        Rows {
            places: self.sets,
            states: self.sizes[k],
            cells: &tables[k * self.slot_length()..],
        }
    }

    // The table in slot k.
    pub(crate) fn table<'t>(&self, tables: &'t [u16], k: usize) -> Table<'t>
        requires within { Within self.now k (length tables.now) }
        requires stands { ∥ Stands self.now tables.now k ∥₁ }
        ensures places { result.rows.places ≡ self.now.sets }
        ensures states { result.rows.states ≡ size_of self.now k }
        ensures cells { result.rows.cells.now ≡ rows_of self.now tables.now k }
    {
        Table {
            rows: self.rows(tables, k),
        }
    }

    // Explores a kind in the work space, and writes its table into the second slot of it. The budget is at most that of
    // the tray.
    pub(crate) fn explore<K: Kind>(
        &self,
        kind: &K,
        budget: usize,
        records: &mut [K::State],
        links: &mut [u16],
        spare: &mut [u16],
    ) -> Result<Counts, Unexplored>
        requires within { self.now.budget ≤ 512 }
        requires room { Room self.now.sets budget (length records.old) (length links.old) (slot self.now) }
        requires work { 2 * slot self.now ≤ length spare.old }
        ensures { Aside (K.Kind.moves kind.now) self.now.sets budget (drop (slot self.now) spare.new) result }
    {
        let (rows, fresh) = spare.split_at_mut(self.slot_length());
        let limits = Limits {
            sets: self.sets,
            budget,
        };
        let mut memory = Memory {
            records,
            links,
            rows,
        };
        tabulate(kind, limits, &mut memory, fresh, 0)
    }

    // Explores the sets of states of a table of the tray with a set hidden, as `explore` does a kind.
    pub(crate) fn explore_hidden(
        &self,
        table: &Table,
        set: u8,
        records: &mut [StateSet],
        links: &mut [u16],
        spare: &mut [u16],
    ) -> Result<Counts, Unexplored>
        requires within { self.now.budget ≤ 512 }
        requires room { Room self.now.sets self.now.budget (length records.old) (length links.old) (slot self.now) }
        requires ready { (table.now.rows.places ≡ self.now.sets) × (set < self.now.sets) × (table.now.rows.states ≤ 512) }
        requires work { 2 * slot self.now ≤ length spare.old }
        ensures { HiddenAside self.now.sets self.now.budget (language_of table.now.rows) set (drop (slot self.now) spare.new) result }
    {
        let (rows, fresh) = spare.split_at_mut(self.slot_length());
        let mut memory = Memory {
            records,
            links,
            rows,
        };
        tabulate_hidden(table, set, self.budget, &mut memory, fresh)
    }

    // Copies the table that was made at the front of the second slot of `spare` into slot k, which becomes the top. Answers the counts.
    pub(crate) fn land(
        &mut self,
        tables: &mut [u16],
        spare: &[u16],
        k: usize,
        counts: Counts,
    ) -> (usize, usize)
        requires within { Within self.old k (length tables.old) }
        requires few { (counts.kept ≤ counts.met) × (counts.met ≤ self.old.budget) }
        requires work { 2 * slot self.old ≤ length spare.now }
        ensures counts { result ≡ (counts.met, counts.kept) }
        ensures control { self.new ≡ moved self.old (k + 1) (slice_set self.old.sizes k counts.kept) }
        ensures copied { (x : ℕ) → x < counts.kept * width self.old.sets → slice_index tables.new (k * slot self.old + x) ≡ slice_index (drop (slot self.old) spare.now) x }
        ensures elsewhere { Elsewhere (k * slot self.old) (counts.kept * width self.old.sets) tables.old tables.new }
    {
        let Counts { met, kept } = counts;
        let base = k * self.slot_length();
        let many = kept * self.row_length();
        let fresh = &spare[self.slot_length()..];
        tables[base..base + many].copy_from_slice(&fresh[..many]);
        self.sizes[k] = kept as u16;
        self.count = k + 1;
        (met, kept)
    }

    // Turns over the marks of the table in slot k: a state accepts now exactly when it did not.
    pub(crate) fn turn_over(&self, tables: &mut [u16], k: usize)
        requires within { Within self.now k (length tables.old) }
        requires fits { size_of self.now k ≤ self.now.budget }
        ensures { Flipped self.now.sets (k * slot self.now) (size_of self.now k) tables.old tables.new }
    {
        let width = self.row_length();
        let base = k * self.slot_length();
        for row in 0..usize::from(self.sizes[k]) {
            let at = base + (row * width + (width - 1));
            tables[at] = u16::from(tables[at] != 1);
        }
    }
}
