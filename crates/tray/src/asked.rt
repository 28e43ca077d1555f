//! A predicate of a book on listed sets, as a kind of state.
ghost use Rattle.std.specs.Prelude.{◌≡◌, ◌≤◌, length};
ghost use Rattle.words.specs.Formulas.{through};
ghost use Rattle.tray.specs.Asked.{asked};

use books::{Book, Predicate};
use tables::Kind;
use words::in_set;

// The place column that a column gives to the listed sets: its bit j is the bit of the j-th of them.
fn read_through(listed: &[u8], column: u8) -> u8
    requires { length listed.now ≤ 4 }
    ensures { result ≡ through listed.now column }
{
    let mut read = 0;
    for set in listed.iter().rev() {
        read = 2 * read + u8::from(in_set(column, *set));
    }
    read
}

/// The states of a predicate's automaton, with columns read through the listed sets.
#[derive(Drop)]
pub(crate) struct Asked<'b, 'l, B> {
    pub(crate) book: &'b B,
    pub(crate) predicate: Predicate,
    pub(crate) listed: &'l [u8],
    ghost few: { length listed.now ≤ 4 },
}

impl<'b, 'l, B: Book> Kind for Asked<'b, 'l, B> {
    type State = u16;

    ghost moves = { λ a. asked (B.Book.automaton a.book.now a.predicate) a.listed.now };

    fn start(&self) -> u16 {
        self.book.start(self.predicate)
    }

    fn step(&self, state: u16, column: u8) -> u16 {
        let read = read_through(self.listed, column);
        self.book.step(self.predicate, state, read)
    }

    fn accepts(&self, state: u16) -> bool {
        self.book.accepts(self.predicate, state)
    }

    fn same(&self, a: u16, b: u16) -> bool {
        a == b
    }
}
