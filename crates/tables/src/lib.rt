//! From any kind of state to the table of what it accepts.
#![tactic(auto)]

mod exploration;
mod kind;
mod laws;
mod listed;
mod memory;
mod merging;
mod pairs;
mod tabulation;

pub use exploration::{Unexplored, explore};
pub use kind::Kind;
pub use laws::laws_of_counts;
pub use listed::Listed;
pub use memory::{Limits, Memory};
pub use pairs::{Join, Pairs};
pub use tabulation::{Counts, tabulate};

#[cfg(test)]
mod tests {
    use super::*;
    use words::Rows;

    // The rows of three states over two sets.
    fn three_states(cells: &[u16]) -> Rows {
        Rows {
            places: 2,
            states: 3,
            cells,
        }
    }

    // Tabulates an automaton over one set, with the table from place 2 on in memory that is filled with 9.
    fn tabled(
        states: u16,
        cells: &[u16],
        budget: usize,
    ) -> (Result<Counts, Unexplored>, [u16; 32]) {
        let kind = Listed {
            rows: Rows {
                places: 1,
                states,
                cells,
            },
        };
        let mut memory = Memory {
            records: &mut [0u16; 8],
            links: &mut [0u16; 64],
            rows: &mut [0u16; 24],
        };
        let mut tables = [9u16; 32];
        let counts = tabulate(
            &kind,
            Limits { sets: 1, budget },
            &mut memory,
            &mut tables,
            2,
        );
        (counts, tables)
    }

    // A word is accepted from its sixth column on. States 1 and 2 are alike, and the others are told apart only one
    // round after another, from the accepting one backwards.
    #[test]
    fn several_rounds(rt: HostRuntime) {
        let cells = [
            1, 2, 0, 3, 3, 0, 3, 3, 0, 4, 4, 0, 5, 5, 0, 6, 6, 0, 7, 7, 0, 7, 7, 1,
        ];
        let (counts, tables) = tabled(8, &cells, 8);
        assert_eq!(rt; counts, Ok(Counts { met: 8, kept: 7 }));
        let table = [
            9, 9, 1, 1, 0, 2, 2, 0, 3, 3, 0, 4, 4, 0, 5, 5, 0, 6, 6, 0, 6, 6, 1, 9, 9, 9, 9, 9, 9,
            9, 9, 9,
        ];
        assert!(rt; tables == table);
    }

    // Exactly one member, with the states in another order than that of their earliest words.
    #[test]
    fn another_order(rt: HostRuntime) {
        let cells = [0, 2, 0, 1, 1, 0, 2, 1, 1];
        let (counts, tables) = tabled(3, &cells, 8);
        assert_eq!(rt; counts, Ok(Counts { met: 3, kept: 3 }));
        let table = [
            9, 9, 0, 1, 0, 1, 2, 1, 2, 2, 0, 9, 9, 9, 9, 9, 9, 9, 9, 9, 9, 9, 9, 9, 9, 9, 9, 9, 9,
            9, 9, 9,
        ];
        assert!(rt; tables == table);
    }

    // Three states are met: a budget of 3 is enough, and with 2 the table memory stays as it was.
    #[test]
    fn budget(rt: HostRuntime) {
        let cells = [0, 1, 0, 1, 2, 1, 2, 2, 0];
        let (enough, _) = tabled(3, &cells, 3);
        assert_eq!(rt; enough, Ok(Counts { met: 3, kept: 3 }));
        let (short, tables) = tabled(3, &cells, 2);
        assert_eq!(rt; short, Err(Unexplored::TooMany));
        assert!(rt; tables == [9; 32]);
        let (none, _) = tabled(3, &cells, 0);
        assert_eq!(rt; none, Err(Unexplored::NoRoom));
        let (wide, _) = tabled(3, &cells, 9);
        assert_eq!(rt; wide, Err(Unexplored::NoRoom));
    }

    // "Exactly one member" of set 0 and of set 1, side by side: nine pairs of states are met, and five residuals are
    // kept, since too many members of either set cannot be mended.
    #[test]
    fn pairs(rt: HostRuntime) {
        let first = [0, 1, 0, 1, 0, 1, 2, 1, 2, 1, 2, 2, 2, 2, 0];
        let second = [0, 0, 1, 1, 0, 1, 1, 2, 2, 1, 2, 2, 2, 2, 0];
        let kind = Pairs {
            lower: three_states(&first),
            upper: three_states(&second),
            join: Join::Both,
        };
        let mut memory = Memory {
            records: &mut [(0u16, 0u16); 16],
            links: &mut [0u16; 128],
            rows: &mut [0u16; 80],
        };
        let mut tables = [0u16; 80];
        let limits = Limits {
            sets: 2,
            budget: 16,
        };
        let counts = tabulate(&kind, limits, &mut memory, &mut tables, 0);
        assert_eq!(rt; counts, Ok(Counts { met: 9, kept: 5 }));
    }
}
