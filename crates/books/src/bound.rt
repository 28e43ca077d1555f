//! Two books bound as one.
ghost use Rattle.std.specs.Prelude.{◌≡◌, ◌<◌};
ghost use Rattle.books.specs.Bound.{count_of, source_of, automaton, holds, number_behind, numbered};
ghost use Rattle.books.specs.BoundRule.{bound_rule};

use crate::book::{Book, NamedBook, Predicate, State};

// A book has no more predicates than this.
const MOST: Predicate = 64;

/// Two books as one, which is a book again and can be bound again.
///
/// Where the first book has a predicates, they keep their numbers, and the second book's number q becomes a + q. What
/// would be 64 or more is left out. A name of both books is the first's.
///
/// Each question counts the first book's predicates. So where many books are bound, it costs least if the first of
/// each two is a single one: `Bound::of(&a, &Bound::of(&b, &c))`.
#[derive(Drop)]
pub struct Bound<'a, 'b, A, B> {
    first: &'a A,
    second: &'b B,
}

// The book that a predicate is from, and its number there.
enum Source {
    First(Predicate),
    Second(Predicate),
    Neither,
}

impl<'a, 'b, A: Book, B: Book> Bound<'a, 'b, A, B> {
    /// Binds two books, in the order of their numbers.
    pub fn of(first: &'a A, second: &'b B) -> Self
        ensures first { result.first.now ≡ first.now }
        ensures second { result.second.now ≡ second.now }
    {
        Bound { first, second }
    }

    // Where a predicate is from. What is past the second book's count is left to that book, which answers as a book
    // does for what it lacks.
    fn source_of(&self, p: Predicate) -> Source
        ensures { result ≡ source_of (A.Book.size self.now.first.now) p }
    {
        let before = self.first.count();
        if p < before {
            Source::First(p)
        } else if p < MOST {
            Source::Second(p - before)
        } else {
            Source::Neither
        }
    }

    // The number here of a predicate of the second book, unless it is left out.
    fn number_behind(&self, q: Predicate) -> Option<Predicate>
        requires { q < B.Book.size self.now.second.now }
        ensures { result ≡ number_behind (A.Book.size self.now.first.now) q }
    {
        let p = self.first.count() + q;
        (p < MOST).then_some(p)
    }
}

impl<'a, 'b, A: Book, B: Book> Book for Bound<'a, 'b, A, B> {
    ghost size = { λ b. count_of (A.Book.size b.first.now) (B.Book.size b.second.now) };

    ghost automaton = { λ b. automaton (A.Book.size b.first.now) (A.Book.automaton b.first.now) (B.Book.automaton b.second.now) };

    ghost holds = { λ b. holds (A.Book.size b.first.now) (A.Book.holds b.first.now) (B.Book.holds b.second.now) };

    ghost rule = { λ b. bound_rule (A.Book.rule b.first.now) (B.Book.rule b.second.now) };

    fn count(&self) -> Predicate {
        (self.first.count() + self.second.count()).min(MOST)
    }

    fn places(&self, p: Predicate) -> u8 {
        match self.source_of(p) {
            Source::First(p) => self.first.places(p),
            Source::Second(p) => self.second.places(p),
            Source::Neither => 0,
        }
    }

    fn states(&self, p: Predicate) -> u16 {
        match self.source_of(p) {
            Source::First(p) => self.first.states(p),
            Source::Second(p) => self.second.states(p),
            Source::Neither => 0,
        }
    }

    fn start(&self, p: Predicate) -> State {
        match self.source_of(p) {
            Source::First(p) => self.first.start(p),
            Source::Second(p) => self.second.start(p),
            Source::Neither => 0,
        }
    }

    fn step(&self, p: Predicate, s: State, column: u8) -> State {
        match self.source_of(p) {
            Source::First(p) => self.first.step(p, s, column),
            Source::Second(p) => self.second.step(p, s, column),
            Source::Neither => 0,
        }
    }

    fn accepts(&self, p: Predicate, s: State) -> bool {
        match self.source_of(p) {
            Source::First(p) => self.first.accepts(p, s),
            Source::Second(p) => self.second.accepts(p, s),
            Source::Neither => false,
        }
    }
}

impl<'a, 'b, A: NamedBook, B: NamedBook> NamedBook for Bound<'a, 'b, A, B> {
    ghost numbered = { λ b name. numbered (A.Book.size b.first.now) (A.NamedBook.numbered b.first.now name) (B.NamedBook.numbered b.second.now name) };

    fn find(&self, name: &[u8]) -> Option<Predicate> {
        if let Some(p) = self.first.find(name) {
            return Some(p);
        }
        let q = self.second.find(name)?;
        self.number_behind(q)
    }
}
