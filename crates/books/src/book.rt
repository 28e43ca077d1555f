//! What a book of predicates answers, and the rule that it owes.
ghost use Rattle.std.specs.Prelude.{◌≡◌, ℕ, ◌<◌, List, IfSome, Option, OnSome};
ghost use Rattle.words.specs.Automata.{Automaton};
ghost use Rattle.books.specs.Rule.{SetRule};
ghost use Rattle.books.specs.Names.{IsName};

/// The number of a predicate in its book.
pub type Predicate = u8;

/// A state of a predicate's automaton.
pub type State = u16;

/// At most 64 predicates on finite sets, numbered from 0. Each has 1 to 4 places and an automaton of 1 to 512
/// states that reads columns over its places. Questions change nothing, and each answer is the one that the
/// book's ghost automaton has, so that it is the same each time. Of a predicate, state or column that it lacks it
/// says 0 places, 0 states, state 0, and no.
pub trait Book {
    ghost size: { Self → ℕ };

    ghost automaton: { Self → ℕ → Automaton };

    // The relation that a predicate means, between as many finite sets as it has places.
    ghost holds: { Self → ℕ → List ℕ → Type 0 };

    // What every implementation owes.
    ghost rule: { (b : Self) → SetRule (size b) (automaton b) (holds b) };

    /// How many predicates there are.
    fn count(&self) -> Predicate
        ensures { result ≡ size self.now };

    /// How many sets the predicate speaks of.
    fn places(&self, p: Predicate) -> u8
        ensures { result ≡ (automaton self.now p).places };

    /// How many states the predicate's automaton has.
    fn states(&self, p: Predicate) -> u16
        ensures { result ≡ (automaton self.now p).states };

    /// The state in which a run begins.
    fn start(&self, p: Predicate) -> State
        ensures { result ≡ (automaton self.now p).start };

    /// The next state; bit j of the column belongs to place j.
    fn step(&self, p: Predicate, s: State, column: u8) -> State
        ensures { result ≡ (automaton self.now p).step s column };

    /// Whether a run that ends in this state accepts.
    fn accepts(&self, p: Predicate, s: State) -> bool
        ensures { result ≡ (automaton self.now p).accepts s };
}

/// A book that also finds a predicate by its name, which is three lower-case letters.
pub trait NamedBook: Book {
    // The number that a name has in the book, if it has one.
    ghost numbered: { Self → List ℕ → Option ℕ };

    /// The number of the predicate with this name, which is below the book's count; none for any other bytes.
    fn find(&self, name: &[u8]) -> Option<Predicate>
        ensures numbered { result ≡ numbered self.now name.now }
        ensures below { IfSome result (λ p. p < Self.Book.size self.now) }
        ensures named { OnSome result (IsName name.now) };
}
