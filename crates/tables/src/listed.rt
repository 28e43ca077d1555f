//! Automata that are written out in rows, as a kind of state.
ghost use Rattle.tables.specs.Listed.{listed};

use crate::kind::Kind;
use words::Rows;

/// The states of an automaton that is written out in rows: to tabulate it is to make it smallest.
#[derive(Clone, Copy)]
pub struct Listed<'a> {
    pub rows: Rows<'a>,
}

impl<'a> Kind for Listed<'a> {
    type State = u16;

    ghost moves = { listed };

    fn start(&self) -> u16 {
        0
    }

    fn step(&self, state: u16, column: u8) -> u16 {
        self.rows.step(state, column)
    }

    fn accepts(&self, state: u16) -> bool {
        self.rows.accepts(state)
    }

    fn same(&self, a: u16, b: u16) -> bool {
        a == b
    }
}
