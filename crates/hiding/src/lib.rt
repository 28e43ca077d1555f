//! Hiding a set of a table: the table of the words that code the same sets, but for one, as a word that the table accepts.
#![tactic(auto)]

mod closing;
mod hidden_rows;
mod hide;
mod state_set;
mod subsets;
mod turning;

pub use hide::tabulate_hidden;
pub use state_set::{STATES, StateSet};

#[cfg(test)]
mod tests {
    use super::*;
    use tables::{Counts, Memory, Unexplored};
    use words::{Rows, Table};

    // First + second = third: no carry; the third was wrong; a carry of one.
    #[rattlefmt::skip]
    const SUM: Table<'static> = Table {
        rows: Rows {
            places: 3,
            states: 3,
            cells: &[
                0, 1, 1, 2, 1, 0, 0, 1, 1,
                1, 1, 1, 1, 1, 1, 1, 1, 0,
                1, 2, 2, 1, 0, 1, 1, 2, 0,
            ],
        },
    };

    // Hides a set of the sum, with memory for three states that is filled with 9.
    fn hide(hidden: u8, budget: usize) -> (Result<Counts, Unexplored>, [u16; 27]) {
        let mut memory = Memory {
            records: &mut [StateSet::empty(); 3],
            links: &mut [9; 24],
            rows: &mut [9; 27],
        };
        let mut table = [9u16; 27];
        let counts = tabulate_hidden(&SUM, hidden, budget, &mut memory, &mut table);
        (counts, table)
    }

    // Any two sets have a sum, which may go past the end of the word.
    #[test]
    fn sum_is_there(rt: HostRuntime) {
        let (counts, table) = hide(2, 3);
        assert_eq!(rt; counts, Ok(Counts { met: 3, kept: 1 }));
        assert!(rt; table[..10] == [0, 0, 0, 0, 0, 0, 0, 0, 1, 9]);
    }

    // Three sets of states are met, so that a budget of 2 is too small; and there is no fourth set.
    #[test]
    fn refusals(rt: HostRuntime) {
        let (short, table) = hide(2, 2);
        assert_eq!(rt; short, Err(Unexplored::TooMany));
        assert!(rt; table == [9; 27]);
        let (outside, table) = hide(3, 3);
        assert_eq!(rt; outside, Err(Unexplored::NoRoom));
        assert!(rt; table == [9; 27]);
    }
}
