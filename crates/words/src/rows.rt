//! Automata written out in rows.
ghost use Rattle.std.specs.Prelude.{◌≡◌, ◌^◌, ◌≤◌, slice_index, slice_set};
ghost use Rattle.words.specs.Rows.{width};

use crate::word::is_column;

/// An automaton as one row for each state: the next states in the order of columns, then 1 where the state accepts.
/// Its start is state 0, and outside of the rows it answers state 0 and not accepting.
#[derive(Clone, Copy)]
pub struct Rows<'a> {
    pub places: u8,
    pub states: u16,
    pub cells: &'a [u16],
    ghost few: { places ≤ 8 },
}

impl Rows<'_> {
    ghost use Rattle.words.specs.Described.{described};

    /// How many columns there are over so many places.
    pub fn columns(&self) -> usize
        ensures columns { result ≡ 2 ^ self.now.places }
        ensures few { result ≤ 256 }
    {
        1usize << self.places
    }

    /// How many numbers a row has: a next state for each column, and the mark.
    pub fn width(&self) -> usize
        ensures { result ≡ width self.now.places }
    {
        self.columns() + 1
    }

    /// The next state.
    pub fn step(&self, state: u16, column: u8) -> u16
        ensures { result ≡ (described self.now).step state column }
    {
        if state >= self.states || !is_column(column, self.places) {
            return 0;
        }
        cell(
            self.cells,
            usize::from(state) * self.width() + usize::from(column),
        )
    }

    /// Whether a state accepts.
    pub fn accepts(&self, state: u16) -> bool
        ensures { result ≡ (described self.now).accepts state }
    {
        if state >= self.states {
            return false;
        }
        cell(
            self.cells,
            usize::from(state) * self.width() + self.columns(),
        ) == 1
    }
}

/// The number at a place, or 0 past the end.
pub fn cell(cells: &[u16], at: usize) -> u16
    ensures { result ≡ slice_index cells.now at }
{
    cells.get(at).copied().unwrap_or(0)
}

/// Writes a number at a place; past the end it writes nothing.
pub fn put(cells: &mut [u16], at: usize, value: u16)
    ensures { cells.new ≡ slice_set cells.old at value }
{
    // Of what `get_mut` lends, a proof would know no more than how long the memory is.
    if at < cells.len() {
        cells[at] = value;
    }
}
