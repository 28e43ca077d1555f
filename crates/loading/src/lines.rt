//! Reading the lines of a saved table. A line is read loosely, and then what was read is written as a line again: a line
//! that says the same in another way differs from it, and is refused.
ghost use Rattle.std.specs.Prelude.{◌≡◌, ℕ, ◌+◌, ◌^◌, ◌≤◌, List, [], ◌∷◌, ◌++◌, length, take, drop, map, decimal, All, Decides, slice_index};
ghost use Rattle.saving.specs.TableText.{line_of, names_line};
ghost use Rattle.loading.specs.Lines.{NamesLine, RowLine, ReadsNumbers};

use saving::{write_line, write_names};
use words::put;

// The most numbers in a line: a state, its mark, and sixteen next states.
const MOST_VALUES: usize = 18;

// The longest line of so many numbers: five digits and one byte more for each.
const LONGEST_LINE: usize = 108;

// The longest line of names: over four sets.
const LONGEST_NAMES: usize = 68;

// Whether a line is the line of names over so many places.
fn is_names(line: &[u8], places: u8) -> bool
    ensures { Decides result ((places ≤ 4) × (line.now ≡ names_line places)) }
{
    let mut buffer = [0u8; LONGEST_NAMES];
    match write_names(places, &mut buffer) {
        Some(length) => line == &buffer[..length],
        None => false,
    }
}

// Over how many places a line of names is, if it is one. Each of the four lines of names is written, until one is this.
pub(crate) fn places_in(line: &[u8]) -> Option<u8>
    ensures { NamesLine line.now result }
{
    (1..5).find(|places| is_names(line, *places))
}

// The numbers in a line, which any byte but a digit ends: the first eighteen, each stopping at 65,535, and then zeros.
fn values_in(line: &[u8]) -> [u16; MOST_VALUES]
    ensures { (values : List ℕ) → length values ≤ 18 → All (λ v. v ≤ 65535) values → line.now ≡ line_of (map decimal values) → take (length values) result ≡ values }
{
    let mut values = [0u16; MOST_VALUES];
    let mut count: usize = 0;
    let mut value: u16 = 0;
    for byte in line {
        if byte.is_ascii_digit() {
            value = value
                .saturating_mul(10)
                .saturating_add(u16::from(*byte - b'0'));
        } else {
            put(&mut values, count, value);
            count += 1;
            value = 0;
        }
    }
    values
}

// Whether a line is the line of these numbers.
fn is_line_of(line: &[u8], values: &[u16]) -> bool
    requires { length values.now ≤ 18 }
    ensures { Decides result (line.now ≡ line_of (map decimal values.now)) }
{
    let mut buffer = [0u8; LONGEST_LINE];
    match write_line(values, &mut buffer) {
        Some(length) => line == &buffer[..length],
        None => false,
    }
}

/// Reads a line of as many numbers as there is room for, which are eighteen at most: each at most 65,535 and without
/// needless zeros, one space apart, with byte 10 behind them. Answers whether the line is one; if it is not, nothing is
/// written.
pub fn read_numbers(line: &[u8], values: &mut [u16]) -> bool
    ensures { ReadsNumbers line.now values.old values.new result }
{
    if values.len() > MOST_VALUES {
        return false;
    }
    let read = values_in(line);
    let listed = &read[..values.len()];
    if !is_line_of(line, listed) {
        return false;
    }
    values.copy_from_slice(listed);
    true
}

// How many columns there are over so many places.
fn columns_over(places: u8) -> usize
    requires { places ≤ 4 }
    ensures columns { result ≡ 2 ^ places }
    ensures few { result ≤ 16 }
{
    1usize << places
}

// The next states and then the mark, which in a line stands before them.
fn row_of(values: &[u16; MOST_VALUES], columns: usize) -> [u16; 17]
    requires { columns ≤ 16 }
    ensures { take (columns + 1) result ≡ take columns (drop 2 values.now) ++ slice_index values.now 1 ∷ [] }
{
    let mut row = [0u16; 17];
    row[..columns].copy_from_slice(&values[2..columns + 2]);
    row[columns] = values[1];
    row
}

// The row that the line of this state lists over so many places, at the front of the answer.
pub(crate) fn row_in(line: &[u8], places: u8, state: u16) -> Option<[u16; 17]>
    requires { places ≤ 4 }
    ensures { RowLine places state line.now result }
{
    let values = values_in(line);
    let columns = columns_over(places);
    if values[0] != state || values[1] > 1 || !is_line_of(line, &values[..columns + 2]) {
        return None;
    }
    Some(row_of(&values, columns))
}

#[cfg(test)]
mod tests {
    use super::*;

    #[test]
    fn one_place(rt: HostRuntime) {
        let mut row = [0u16; 17];
        row[1] = 65535;
        row[2] = 1;
        assert_eq!(rt; row_in(b"0 1 0 65535\n", 1, 0), Some(row));
        row[2] = 0;
        assert_eq!(rt; row_in(b"9 0 0 65535\n", 1, 9), Some(row));
    }

    #[test]
    fn four_places(rt: HostRuntime) {
        assert_eq!(rt;
            row_in(
                b"65535 1 0 1 9 10 99 100 999 1000 9999 10000 65535 6 5 4 3 2\n",
                4,
                65535,
            ),
            Some([
                0, 1, 9, 10, 99, 100, 999, 1000, 9999, 10000, 65535, 6, 5, 4, 3, 2, 1
            ])
        );
    }

    // Most differ from the line of a row, which stands last, in one byte or one number.
    #[test]
    fn no_row(rt: HostRuntime) {
        let lines: [&[u8]; 20] = [
            b"",
            b"\n",
            b"0 1 0 1",
            b"0 1 0 1\n\n",
            b"0 1 0\n1\n",
            b"0 1 0 01\n",
            b"0 1 0 +1\n",
            b"0 1 0 -1\n",
            b"0 1  0 1\n",
            b"0 1 0 1 \n",
            b" 0 1 0 1\n",
            b"0 1 0 70000\n",
            b"0 1 0 65536\n",
            b"1 1 0 1\n",
            b"0 2 0 1\n",
            b"0 1 0\n",
            b"0 1 0 1 1\n",
            b"0 1 0 1\xb1\n",
            b"0 1 0\t1\n",
            b"0 1 0 1 1 1 1 1 1 1 1 1 1 1 1 1 1 1 1 1 1 1 1 1\n",
        ];
        for line in lines {
            assert_eq!(rt; row_in(line, 1, 0), None);
        }
        assert!(rt; row_in(b"0 1 0 1\n", 1, 0).is_some());
    }

    #[test]
    fn names(rt: HostRuntime) {
        assert_eq!(rt; places_in(b"state accepts n0 n1\n"), Some(1));
        assert_eq!(rt; places_in(b"state accepts n0 n1 n2 n3\n"), Some(2));
        assert_eq!(rt;
            places_in(b"state accepts n0 n1 n2 n3 n4 n5 n6 n7\n"),
            Some(3)
        );
        assert_eq!(rt;
            places_in(b"state accepts n0 n1 n2 n3 n4 n5 n6 n7 n8 n9 n10 n11 n12 n13 n14 n15\n"),
            Some(4)
        );
    }

    #[test]
    fn no_names(rt: HostRuntime) {
        let lines: [&[u8]; 8] = [
            b"",
            b"state accepts n0\n",
            b"state accepts n0 n1",
            b"state accepts n0 n1\n\n",
            b"state accepts n0 n1 n2\n",
            b"state accepts n0 n01\n",
            b"state  accepts n0 n1\n",
            b"0 1 0 1\n",
        ];
        for line in lines {
            assert_eq!(rt; places_in(line), None);
        }
    }
}
