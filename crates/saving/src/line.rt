//! One line of a table as text: of numbers, or of names.
ghost use Rattle.std.specs.Prelude.{map, decimal};
ghost use Rattle.saving.specs.Laying.{LaysWhole};
ghost use Rattle.saving.specs.Saved.{WritesNames, WritesText};
ghost use Rattle.saving.specs.TableText.{line_of, names_line};

use crate::table::{MOST_SETS, lay_names};
use crate::text::Text;
use words::Rows;

// Lays a line of numbers at the front of a buffer, and answers its length.
fn lay_line(buffer: &mut [u8], values: &[u16]) -> usize
    ensures { LaysWhole (line_of (map decimal values.now)) buffer.old buffer.new result }
{
    let mut text = Text { buffer, end: 0 };
    for (k, value) in values.iter().enumerate() {
        if k > 0 {
            text.byte(b' ');
        }
        text.number(*value);
    }
    text.byte(b'\n');
    text.end
}

// Lays the line of names at the front of a buffer, and answers its length.
fn lay_names_alone(buffer: &mut [u8], rows: &Rows) -> usize
    ensures { LaysWhole (names_line rows.now.places) buffer.old buffer.new result }
{
    let mut text = Text { buffer, end: 0 };
    lay_names(&mut text, rows);
    text.end
}

/// Writes numbers as a line at the front of a buffer: one space apart, and byte 10 behind them. It answers the length of
/// the line, or none where the buffer is shorter, and then changes nothing. The numbers are gone through twice.
pub fn write_line(values: &[u16], buffer: &mut [u8]) -> Option<usize>
    ensures { WritesText (line_of (map decimal values.now)) buffer.old buffer.new result }
{
    let mut none = [0u8; 0];
    if buffer.len() < lay_line(&mut none, values) {
        return None;
    }
    Some(lay_line(buffer, values))
}

/// Writes the line of names over so many sets at the front of a buffer. It answers the length of the line, or none where
/// there are more than four sets or the buffer is shorter, and then changes nothing.
pub fn write_names(places: u8, buffer: &mut [u8]) -> Option<usize>
    ensures { WritesNames places buffer.old buffer.new result }
{
    if places > MOST_SETS {
        return None;
    }
    let rows = Rows {
        places,
        states: 0,
        cells: &[],
    };
    let mut none = [0u8; 0];
    if buffer.len() < lay_names_alone(&mut none, &rows) {
        return None;
    }
    Some(lay_names_alone(buffer, &rows))
}
