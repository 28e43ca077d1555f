//! The standard book: `sub`, `one`, `suc`, `les`, `sum` and `emp`, numbered 0 to 5.
ghost use Rattle.std.specs.Prelude.{◌≡◌, ◌<◌, IfSome, OnSome};
ghost use Rattle.books.specs.Names.{IsName, Finds};
ghost use Rattle.books.specs.Standard.{places, states, rows, count, automaton, holds, names, numbered};
ghost use Rattle.books.specs.StandardRule.{standard_rule};

use crate::book::{Book, NamedBook, Predicate, State};
use words::Rows;

/// The book that every program has. It holds nothing: what it knows is the table below.
#[derive(Clone, Copy)]
pub struct Standard;

impl Standard {
    /// The number of `sub`: every member of the first is in the second.
    pub const SUB: Predicate = 0;
    /// The number of `one`: exactly one member.
    pub const ONE: Predicate = 1;
    /// The number of `suc`: {p} and {p + 1}.
    pub const SUC: Predicate = 2;
    /// The number of `les`: {p} and {q} with p below q.
    pub const LES: Predicate = 3;
    /// The number of `sum`: first + second = third.
    pub const SUM: Predicate = 4;
    /// The number of `emp`: no member.
    pub const EMP: Predicate = 5;
}

// Each run begins in the first row.
const START: State = 0;

// A row for each state: the next states in the order of columns, then 1 where the state accepts.

// So far each member of the first was in the second; one was not.
#[rattlefmt::skip]
const SUB: [u16; 10] = [
    0, 1, 0, 0, 1,
    1, 1, 1, 1, 0,
];

// No member; one; more.
#[rattlefmt::skip]
const ONE: [u16; 9] = [
    0, 1, 0,
    1, 2, 1,
    2, 2, 0,
];

// Nothing yet; {p}, and the second is due now; both; too much, too early or too late.
#[rattlefmt::skip]
const SUC: [u16; 20] = [
    0, 1, 3, 3, 0,
    3, 3, 2, 3, 0,
    2, 3, 3, 3, 1,
    3, 3, 3, 3, 0,
];

// Nothing yet; {p}, and the second may come; both; too much or too early.
#[rattlefmt::skip]
const LES: [u16; 20] = [
    0, 1, 3, 3, 0,
    1, 3, 2, 3, 0,
    2, 3, 3, 3, 1,
    3, 3, 3, 3, 0,
];

// No carry; a carry of one; the third was wrong.
#[rattlefmt::skip]
const SUM: [u16; 27] = [
    0, 2, 2, 1, 2, 0, 0, 2, 1,
    2, 1, 1, 2, 0, 2, 2, 1, 0,
    2, 2, 2, 2, 2, 2, 2, 2, 0,
];

// No member; some.
#[rattlefmt::skip]
const EMP: [u16; 6] = [
    0, 1, 1,
    1, 1, 0,
];

// What the book knows of a predicate: its name, and its automaton as rows.
#[derive(Clone, Copy)]
struct Known {
    name: [u8; 3],
    rows: Rows<'static>,
}

// The predicates in the order of their numbers.
const BOOK: [Known; 6] = [
    Known {
        name: *b"sub",
        rows: Rows {
            places: 2,
            states: 2,
            cells: &SUB,
        },
    },
    Known {
        name: *b"one",
        rows: Rows {
            places: 1,
            states: 3,
            cells: &ONE,
        },
    },
    Known {
        name: *b"suc",
        rows: Rows {
            places: 2,
            states: 4,
            cells: &SUC,
        },
    },
    Known {
        name: *b"les",
        rows: Rows {
            places: 2,
            states: 4,
            cells: &LES,
        },
    },
    Known {
        name: *b"sum",
        rows: Rows {
            places: 3,
            states: 3,
            cells: &SUM,
        },
    },
    Known {
        name: *b"emp",
        rows: Rows {
            places: 1,
            states: 2,
            cells: &EMP,
        },
    },
];

const NO_ROWS: Rows = Rows {
    places: 0,
    states: 0,
    cells: &[],
};

// The rows of a predicate; none from 6 on.
fn rows_of(p: Predicate) -> Rows<'static>
    ensures places { result.places ≡ places p }
    ensures states { result.states ≡ states p }
    ensures cells { result.cells.now ≡ rows p }
{
    // A place that is written out is looked up when the program is built; `BOOK.get(..)` would lay out the whole table for
    // each question.
    match p {
        Standard::SUB => BOOK[0].rows,
        Standard::ONE => BOOK[1].rows,
        Standard::SUC => BOOK[2].rows,
        Standard::LES => BOOK[3].rows,
        Standard::SUM => BOOK[4].rows,
        Standard::EMP => BOOK[5].rows,
        _ => NO_ROWS,
    }
}

impl Book for Standard {
    ghost size = { λ _. count };

    ghost automaton = { λ _. automaton };

    ghost holds = { λ _. holds };

    ghost rule = { λ _. standard_rule };

    fn count(&self) -> Predicate {
        BOOK.len() as Predicate
    }

    fn places(&self, p: Predicate) -> u8 {
        rows_of(p).places
    }

    fn states(&self, p: Predicate) -> u16 {
        rows_of(p).states
    }

    fn start(&self, _p: Predicate) -> State {
        START
    }

    fn step(&self, p: Predicate, s: State, column: u8) -> State {
        rows_of(p).step(s, column)
    }

    fn accepts(&self, p: Predicate, s: State) -> bool {
        rows_of(p).accepts(s)
    }
}

impl NamedBook for Standard {
    ghost numbered = { λ _. numbered };

    fn find(&self, name: &[u8]) -> Option<Predicate>
        ensures numbered { result ≡ numbered name.now }
        ensures below { IfSome result (λ p. p < count) }
        ensures named { OnSome result (IsName name.now) }
        ensures exact { Finds names name.now result }
    {
        BOOK.iter()
            .position(|known| name == known.name.as_slice())
            .map(|at| at as Predicate)
    }
}
