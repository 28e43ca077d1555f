//! What a loaded book answers.
ghost use Rattle.std.specs.Prelude.{◌≡◌, ◌<◌, [], ◌∷◌, length, replicate, IfSome, OnSome, slice_index, slice_index_or};
ghost use Rattle.books.specs.Names.{IsName};
ghost use Rattle.loading.specs.Loaded.{size, automaton, holds, numbered};
ghost use Rattle.loading.specs.LoadedRule.{loaded_rule};

use crate::loaded::{Loaded, MOST_CELLS};
use books::{Book, NamedBook, Predicate, State};
use words::Rows;

const NO_ROWS: Rows = Rows {
    places: 0,
    states: 0,
    cells: &[],
};

impl Loaded {
    /// A book without a predicate.
    pub fn blank() -> Loaded
        ensures size { size result ≡ 0 }
        ensures name { result.name ≡ replicate 3 0 }
        ensures places { result.places ≡ 0 }
        ensures cells { result.cells ≡ replicate 8704 0 }
    {
        Loaded {
            name: [0; 3],
            places: 0,
            states: 0,
            cells: [0; MOST_CELLS],
        }
    }

    // The rows of a predicate; none from 1 on.
    fn rows_of(&self, p: Predicate) -> Rows<'_>
        ensures places { result.places ≡ slice_index (self.now.places ∷ []) p }
        ensures states { result.states ≡ slice_index (self.now.states ∷ []) p }
        ensures cells { result.cells.now ≡ slice_index_or (self.now.cells ∷ []) p [] }
    {
        if p > 0 {
            return NO_ROWS;
        }
        Rows {
            places: self.places,
            states: self.states,
            cells: &self.cells,
        }
    }
}

impl Book for Loaded {
    ghost size = { size };

    ghost automaton = { automaton };

    ghost holds = { holds };

    ghost rule = { loaded_rule };

    fn count(&self) -> Predicate {
        Predicate::from(self.states > 0)
    }

    fn places(&self, p: Predicate) -> u8 {
        self.rows_of(p).places
    }

    fn states(&self, p: Predicate) -> u16 {
        self.rows_of(p).states
    }

    fn start(&self, _p: Predicate) -> State {
        0
    }

    fn step(&self, p: Predicate, s: State, column: u8) -> State {
        self.rows_of(p).step(s, column)
    }

    fn accepts(&self, p: Predicate, s: State) -> bool {
        self.rows_of(p).accepts(s)
    }
}

impl NamedBook for Loaded {
    ghost numbered = { numbered };

    fn find(&self, name: &[u8]) -> Option<Predicate> {
        if self.states > 0 && name == self.name.as_slice() {
            Some(0)
        } else {
            None
        }
    }
}
