//! Sets of table states, as a kind of state: where the table can be when one of its sets is not known.
ghost use Rattle.std.specs.Prelude.{◌≡◌, ◌+◌, ◌≤◌};
ghost use Rattle.hiding.specs.StateSets.{has_bit};
ghost use Rattle.hiding.specs.Collected.{followed, walked, gathered};
ghost use Rattle.hiding.specs.Kinds.{subsets};

use crate::hidden_rows::HiddenRows;
use crate::state_set::StateSet;
use tables::Kind;
use words::Rows;

// The rows of a table, and a column to read by, with the bit of the hidden set turned to 0 and to 1.
#[derive(Clone, Copy)]
struct Readings<'a> {
    rows: Rows<'a>,
    off: u8,
    on: u8,
}

impl Readings<'_> {
    // Puts the next states of a state by either column into a set.
    fn follow(&self, state: u16, gathered: &mut StateSet)
        ensures { gathered.new ≡ followed self.now state gathered.old }
    {
        gathered.insert(self.rows.step(state, self.off));
        gathered.insert(self.rows.step(state, self.on));
    }

    // Follows each state that a word of a set holds: bit b is the state base + b. The bits that are 0 cost nothing.
    fn follow_word(&self, word: u64, base: u16, gathered: &mut StateSet)
        requires { base ≤ 448 }
        ensures { gathered.new ≡ walked (λ b. followed self.now (base + b)) (has_bit word) 64 gathered.old }
    {
        let mut rest = word;
        while rest != 0 {
            let b = rest.trailing_zeros();
            rest &= !(1u64 << b);
            self.follow(base + b as u16, gathered);
        }
    }

    // The next states of all states of a set by either column.
    fn follow_all(&self, from: &StateSet) -> StateSet
        ensures { result ≡ gathered self.now from.now }
    {
        let mut gathered = StateSet::empty();
        for (k, word) in from.words().iter().enumerate() {
            self.follow_word(*word, 64 * k as u16, &mut gathered);
        }
        gathered
    }
}

/// The sets of states of a table that words lead to when the bits of its hidden set are not known. A set accepts when
/// it has a state in common with `closing`.
#[derive(Clone, Copy)]
pub(crate) struct Subsets<'a> {
    pub table: HiddenRows<'a>,
    pub closing: StateSet,
}

impl<'a> Kind for Subsets<'a> {
    type State = StateSet;

    ghost moves = { subsets };

    fn start(&self) -> StateSet {
        let mut first = StateSet::empty();
        first.insert(0);
        first
    }

    fn step(&self, state: StateSet, column: u8) -> StateSet {
        let reads = Readings {
            rows: self.table.rows,
            off: self.table.hidden.off(column),
            on: self.table.hidden.on(column),
        };
        reads.follow_all(&state)
    }

    #[tactic(auto, using(crate::proofs::Meeting::meeting_decides))]
    fn accepts(&self, state: StateSet) -> bool {
        state.meets(&self.closing)
    }

    fn same(&self, a: StateSet, b: StateSet) -> bool {
        a == b
    }
}
