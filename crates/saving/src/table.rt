//! A table as text: a line of names, and then a line for each state.
ghost use Rattle.std.specs.Prelude.{◌^◌};
ghost use Rattle.words.specs.Described.{described};
ghost use Rattle.saving.specs.Laying.{Lays, LaysWhole, nexts_of};
ghost use Rattle.saving.specs.Saved.{Saved, rows_text};
ghost use Rattle.saving.specs.TableText.{names_line, row_line};

use crate::text::Text;
use crate::unsaved::Unsaved;
use words::Rows;

// The most sets that a table is saved over.
pub(crate) const MOST_SETS: u8 = 4;

// Lays the line of names.
pub(crate) fn lay_names(text: &mut Text, rows: &Rows)
    ensures { Lays (names_line rows.now.places) text.old text.new }
{
    text.bytes(b"state accepts");
    let columns = rows.columns();
    for column in 0..columns {
        text.bytes(b" n");
        text.number(column as u16);
    }
    text.bytes(b"\n");
}

// Lays the next states of a state, each with a space before it.
fn lay_nexts(text: &mut Text, rows: &Rows, state: u16)
    ensures { Lays (nexts_of (described rows.now) state (2 ^ rows.now.places)) text.old text.new }
{
    let columns = rows.columns();
    for column in 0..columns {
        text.byte(b' ');
        text.number(rows.step(state, column as u8));
    }
}

// Lays the line of a state.
fn lay_row(text: &mut Text, rows: &Rows, state: u16)
    ensures { Lays (row_line (described rows.now) state) text.old text.new }
{
    text.number(state);
    text.byte(b' ');
    text.number(u16::from(rows.accepts(state)));
    lay_nexts(text, rows, state);
    text.byte(b'\n');
}

// Lays the whole text at the front of a buffer, and answers its length.
fn lay_table(buffer: &mut [u8], rows: &Rows) -> usize
    ensures { LaysWhole (rows_text rows.now) buffer.old buffer.new result }
{
    let mut text = Text { buffer, end: 0 };
    lay_names(&mut text, rows);
    for state in 0..rows.states {
        lay_row(&mut text, rows, state);
    }
    text.end
}

/// Writes the text of a table at the front of a buffer, and answers its length. A refused call changes nothing. The text
/// is gone through twice: once for its length, and once to write it.
pub fn save_rows(rows: &Rows, buffer: &mut [u8]) -> Result<usize, Unsaved>
    ensures { Saved rows.now buffer.old buffer.new result }
{
    if rows.places > MOST_SETS {
        return Err(Unsaved::TooManySets);
    }
    let mut none = [0u8; 0];
    if buffer.len() < lay_table(&mut none, rows) {
        return Err(Unsaved::NoBuffer);
    }
    Ok(lay_table(buffer, rows))
}
