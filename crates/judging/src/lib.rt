//! Judging a table: whether no sets, some or all meet the claim, with the earliest word of either kind.
#![tactic(auto)]

mod verdict;
mod walk;

pub use verdict::{Judgement, Verdict, judge_table};

#[cfg(test)]
mod tests {
    use super::*;
    use words::{Rows, Table};

    // Each member of set 0 is in set 1.
    const WITHIN: Table<'static> = Table {
        rows: Rows {
            places: 2,
            states: 2,
            cells: &[0, 1, 0, 0, 1, 1, 1, 1, 1, 0],
        },
    };

    // Set 0 has exactly one member.
    const ONE_MEMBER: Table<'static> = Table {
        rows: Rows {
            places: 1,
            states: 3,
            cells: &[0, 1, 0, 1, 2, 1, 2, 2, 0],
        },
    };

    // Set 0 is {p} and set 1 is {p + 1}.
    const SUCCESSOR: Table<'static> = Table {
        rows: Rows {
            places: 2,
            states: 4,
            cells: &[0, 1, 2, 2, 0, 2, 2, 3, 2, 0, 2, 2, 2, 2, 0, 3, 2, 2, 2, 1],
        },
    };

    // Three sets are what they are.
    const ALL: Table<'static> = Table {
        rows: Rows {
            places: 3,
            states: 1,
            cells: &[0, 0, 0, 0, 0, 0, 0, 0, 1],
        },
    };

    // A set is what it is not.
    const NONE: Table<'static> = Table {
        rows: Rows {
            places: 1,
            states: 1,
            cells: &[0, 0, 0],
        },
    };

    // Judges a table, with two buffers that are filled with 9.
    fn judged(table: Table) -> (Option<Judgement>, [u8; 4], [u8; 4]) {
        let mut witness = [9u8; 4];
        let mut counterexample = [9u8; 4];
        let judgement = judge_table(&table, &mut witness, &mut counterexample);
        (judgement, witness, counterexample)
    }

    // The judgement that some sets meet the claim, with the lengths of the two words.
    fn some_sets(states: usize, witness: usize, counterexample: usize) -> Option<Judgement> {
        Some(Judgement {
            verdict: Verdict::SomeSets,
            states,
            witness: Some(witness),
            counterexample: Some(counterexample),
        })
    }

    #[test]
    fn within(rt: HostRuntime) {
        let (judgement, witness, counterexample) = judged(WITHIN);
        assert_eq!(rt; judgement, some_sets(2, 0, 1));
        assert!(rt; witness == [9, 9, 9, 9]);
        assert!(rt; counterexample == [1, 9, 9, 9]);
    }

    #[test]
    fn one_member(rt: HostRuntime) {
        let (judgement, witness, counterexample) = judged(ONE_MEMBER);
        assert_eq!(rt; judgement, some_sets(3, 1, 0));
        assert!(rt; witness == [1, 9, 9, 9]);
        assert!(rt; counterexample == [9, 9, 9, 9]);
    }

    #[test]
    fn successor(rt: HostRuntime) {
        let (judgement, witness, counterexample) = judged(SUCCESSOR);
        assert_eq!(rt; judgement, some_sets(4, 2, 0));
        assert!(rt; witness == [1, 2, 9, 9]);
        assert!(rt; counterexample == [9, 9, 9, 9]);
    }

    // All sets over three, and none over one: the buffer of the word that there is not stays as it was.
    #[test]
    fn all_and_none(rt: HostRuntime) {
        let (all, _, untouched) = judged(ALL);
        let expected = Judgement {
            verdict: Verdict::AllSets,
            states: 1,
            witness: Some(0),
            counterexample: None,
        };
        assert_eq!(rt; all, Some(expected));
        assert!(rt; untouched == [9, 9, 9, 9]);
        let (none, untouched, _) = judged(NONE);
        let expected = Judgement {
            verdict: Verdict::NoSets,
            states: 1,
            witness: None,
            counterexample: Some(0),
        };
        assert_eq!(rt; none, Some(expected));
        assert!(rt; untouched == [9, 9, 9, 9]);
    }

    // One byte too few in either buffer: no judgement, and nothing is written.
    #[test]
    fn short_buffers(rt: HostRuntime) {
        let mut short = [9u8; 1];
        let mut long = [9u8; 2];
        assert_eq!(rt; judge_table(&WITHIN, &mut short, &mut long), None);
        assert_eq!(rt; judge_table(&WITHIN, &mut long, &mut short), None);
        assert!(rt; short == [9]);
        assert!(rt; long == [9, 9]);
    }
}
