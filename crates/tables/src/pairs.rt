//! Pairs of table states, as a kind of state.
ghost use Rattle.tables.specs.Paired.{paired};

use crate::kind::Kind;
use words::Rows;

/// How the answers of two tables become one.
#[derive(Clone, Copy)]
pub enum Join {
    /// Both accept.
    Both,
    /// One at least accepts.
    Either,
}

/// Two tables side by side: a state is a pair of theirs.
#[derive(Clone, Copy)]
pub struct Pairs<'l, 'u> {
    pub lower: Rows<'l>,
    pub upper: Rows<'u>,
    pub join: Join,
}

impl<'l, 'u> Kind for Pairs<'l, 'u> {
    type State = (u16, u16);

    ghost moves = { paired };

    fn start(&self) -> (u16, u16) {
        (0, 0)
    }

    fn step(&self, state: (u16, u16), column: u8) -> (u16, u16) {
        (
            self.lower.step(state.0, column),
            self.upper.step(state.1, column),
        )
    }

    fn accepts(&self, state: (u16, u16)) -> bool {
        let lower = self.lower.accepts(state.0);
        let upper = self.upper.accepts(state.1);
        match self.join {
            Join::Both => lower && upper,
            Join::Either => lower || upper,
        }
    }

    fn same(&self, a: (u16, u16), b: (u16, u16)) -> bool {
        a == b
    }
}
