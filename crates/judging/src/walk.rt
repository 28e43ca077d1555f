//! The first word of a state of a table, found from its end: the first row and column that lead to the state give the
//! last column, and the word of that row comes before it. The first state has the empty word.
ghost use Rattle.std.specs.Prelude.{◌≤◌, length};
ghost use Rattle.std.specs.Iterator.{at_most};
ghost use Rattle.words.specs.Described.{described};
ghost use Rattle.judging.specs.Walk.{FirstColumn, FirstPair, Follows, FirstLong, Spelled};

use words::{Rows, nth_column};

// A row, and a column by which it leads to the state at hand.
#[derive(Clone, Copy)]
struct Link {
    row: u16,
    column: u8,
}

// The first column by which a row leads to a state.
fn column_to(rows: &Rows, row: u16, state: u16) -> Option<u8>
    ensures { FirstColumn (described rows.now) state row result }
{
    let columns = rows.columns();
    (0..columns)
        .map(|k| nth_column(rows.places, k))
        .find(|column| rows.step(row, *column) == state)
}

// The first pair of a lower row and a column that leads to a state; the first state has none.
fn link_to(rows: &Rows, state: u16) -> Option<Link>
    ensures { FirstPair (described rows.now) state result }
{
    (0..state).find_map(|row| column_to(rows, row, state).map(|column| Link { row, column }))
}

// The links from a state back to the first state. In any memory each row is lower than the one before, so that they
// end.
#[derive(Drop)]
struct Links<'r> {
    rows: &'r Rows<'r>,
    at: u16,
}

impl Iterator for Links<'_> {
    type Item = Link;

    ghost next_gives = { Follows };

    ghost remaining = { λ s. at_most s.at };

    fn next(&mut self) -> Option<Link> {
        let link = link_to(self.rows, self.at)?;
        self.at = link.row;
        Some(link)
    }
}

// The length of the first word of a state.
pub(crate) fn word_length(rows: &Rows, state: u16) -> usize
    ensures { FirstLong rows.now state result }
{
    Links { rows, at: state }.count()
}

// Writes the first word of a state, which has `count` columns, from the last to the first.
pub(crate) fn write_word(rows: &Rows, state: u16, count: usize, buffer: &mut [u8])
    requires room { count ≤ length buffer.old }
    ensures { Spelled rows.now state count buffer.old buffer.new }
{
    let links = Links { rows, at: state };
    for (k, link) in (0..count).rev().zip(links) {
        buffer[k] = link.column;
    }
}
