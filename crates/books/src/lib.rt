//! Books of predicates on finite sets, the set rule that each owes, the standard book, and two books bound as one.
#![tactic(auto)]

mod book;
mod bound;
mod question;
mod standard;

pub use book::{Book, NamedBook, Predicate, State};
pub use bound::Bound;
pub use question::{NoAnswer, ask};
pub use standard::Standard;

#[cfg(test)]
mod tests {
    use super::*;
    use std::alloc::AllocError;

    #[test]
    fn relations(rt: HostRuntime) {
        let book = Standard;
        // {1} is within {0, 1}, and {0, 1} is not within {1}
        assert_eq!(rt; ask(&book, Standard::SUB, &[2, 3]), Ok(true));
        assert_eq!(rt; ask(&book, Standard::SUB, &[1, 3]), Ok(false));
        // {0} and {1}; both bits in one column; the second bit a column late
        assert_eq!(rt; ask(&book, Standard::SUC, &[1, 2]), Ok(true));
        assert_eq!(rt; ask(&book, Standard::SUC, &[3]), Ok(false));
        assert_eq!(rt; ask(&book, Standard::SUC, &[1, 0, 2]), Ok(false));
        assert_eq!(rt; ask(&book, Standard::LES, &[1, 0, 2]), Ok(true));
        // 1 + 1 = 2, and the carry must be there
        assert_eq!(rt; ask(&book, Standard::SUM, &[3, 4]), Ok(true));
        assert_eq!(rt; ask(&book, Standard::SUM, &[3]), Ok(false));
    }

    #[test]
    fn empty_words_and_bad_questions(rt: HostRuntime) {
        let book = Standard;
        assert_eq!(rt; ask(&book, Standard::EMP, &[]), Ok(true));
        assert_eq!(rt; ask(&book, Standard::ONE, &[]), Ok(false));
        assert_eq!(rt; ask(&book, 6, &[]), Err(NoAnswer::NoPredicate));
        assert_eq!(rt; ask(&book, 255, &[9]), Err(NoAnswer::NoPredicate));
        assert_eq!(rt;
            ask(&book, Standard::ONE, &[1, 0, 2, 4]),
            Err(NoAnswer::NoColumn(2))
        );
        assert_eq!(rt; book.step(Standard::SUB, 2, 0), 0);
        assert_eq!(rt; book.step(Standard::SUM, 0, 8), 0);
        assert_eq!(rt; book.accepts(Standard::EMP, 9), false);
        assert_eq!(rt; book.places(6), 0);
        assert_eq!(rt; book.states(6), 0);
    }

    #[test]
    fn names(rt: HostRuntime) {
        let book = Standard;
        assert_eq!(rt; book.find(b"sub"), Some(Standard::SUB));
        assert_eq!(rt; book.find(b"emp"), Some(Standard::EMP));
        assert_eq!(rt; book.find(b"sums"), None);
        assert_eq!(rt; book.find(b"Sum"), None);
        assert_eq!(rt; book.find(b""), None);
    }

    // The standard book with one name, `end` in place of `emp`.
    struct Renamed;

    impl Book for Renamed {
        ghost use Rattle.books.specs.Standard.{count, automaton, holds};
        ghost use Rattle.books.specs.StandardRule.{standard_rule};

        ghost size = { λ _. count };

        ghost automaton = { λ _. automaton };

        ghost holds = { λ _. holds };

        ghost rule = { λ _. standard_rule };

        fn count(&self) -> Predicate {
            Standard.count()
        }

        fn places(&self, p: Predicate) -> u8 {
            Standard.places(p)
        }

        fn states(&self, p: Predicate) -> u16 {
            Standard.states(p)
        }

        fn start(&self, p: Predicate) -> State {
            Standard.start(p)
        }

        fn step(&self, p: Predicate, s: State, column: u8) -> State {
            Standard.step(p, s, column)
        }

        fn accepts(&self, p: Predicate, s: State) -> bool {
            Standard.accepts(p, s)
        }
    }

    impl NamedBook for Renamed {
        ghost use Rattle.std.specs.Prelude.{[], ◌∷◌, cond, Some, None};
        ghost use Rattle.std.specs.Str.{bytes_eq};

        // 101, 110 and 100 are the bytes of `end`.
        ghost numbered = { λ _ name. cond (bytes_eq name (101 ∷ 110 ∷ 100 ∷ [])) (Some 5) None };

        fn find(&self, name: &[u8]) -> Option<Predicate> {
            (name == b"end".as_slice()).then_some(Standard::EMP)
        }
    }

    #[test]
    fn two_books(rt: HostRuntime) {
        let book = Bound::of(&Standard, &Renamed);
        assert_eq!(rt; book.count(), 12);
        assert_eq!(rt; book.places(6 + Standard::SUM), 3);
        assert_eq!(rt; book.states(6 + Standard::SUM), 3);
        assert_eq!(rt; book.start(6 + Standard::SUM), 0);
        assert_eq!(rt; book.step(6 + Standard::SUM, 0, 3), 1);
        assert_eq!(rt; book.accepts(6 + Standard::SUM, 0), true);
        assert_eq!(rt; book.accepts(6 + Standard::SUM, 1), false);
        assert_eq!(rt; book.places(12), 0);
        assert_eq!(rt; book.states(255), 0);
        assert_eq!(rt; book.find(b"sub"), Some(Standard::SUB));
        assert_eq!(rt; book.find(b"end"), Some(11));
        assert_eq!(rt; book.find(b"abc"), None);
    }

    #[test]
    fn bound_and_asked(rt: HostRuntime) {
        let two = Bound::of(&Standard, &Renamed);
        let book = Bound::of(&two, &Standard);
        assert_eq!(rt; book.count(), 18);
        assert_eq!(rt; book.find(b"end"), Some(11));
        // 1 + 1 = 2 in each of the three; {0} has a member
        assert_eq!(rt; ask(&book, 4, &[3, 4]), Ok(true));
        assert_eq!(rt; ask(&book, 10, &[3, 4]), Ok(true));
        assert_eq!(rt; ask(&book, 16, &[3, 4]), Ok(true));
        assert_eq!(rt; ask(&book, 17, &[1]), Ok(false));
        assert_eq!(rt; ask(&book, 18, &[]), Err(NoAnswer::NoPredicate));
    }

    // Ten standard books as one.
    #[test]
    fn full(rt: HostRuntime) {
        let two = Bound::of(&Standard, &Standard);
        let four = Bound::of(&two, &two);
        let eight = Bound::of(&four, &four);
        let ten = Bound::of(&eight, &two);
        assert_eq!(rt; ten.count(), 60);
        let book = Bound::of(&ten, &Renamed);
        assert_eq!(rt; book.count(), 64);
        // its `les` is the last that has a number
        assert_eq!(rt; book.states(63), 4);
        assert_eq!(rt; book.places(64), 0);
        assert_eq!(rt; book.states(64), 0);
        assert_eq!(rt; book.step(64, 0, 3), 0);
        assert_eq!(rt; book.accepts(64, 0), false);
        assert_eq!(rt; book.find(b"sum"), Some(Standard::SUM));
        assert_eq!(rt; book.find(b"end"), None);
    }

    #[test]
    fn reasons(rt: HostRuntime) -> Result<(), AllocError> {
        let no_predicate = format!(in rt.alloc(); "{}", NoAnswer::NoPredicate)?;
        let no_column = format!(in rt.alloc(); "{}", NoAnswer::NoColumn(2))?;
        assert_eq!(rt;
            no_predicate.as_str(),
            "the book does not have the predicate"
        );
        assert_eq!(rt;
            no_column.as_str(),
            "the column at position 2 has a bit for a place that the predicate does not have"
        );
        Ok(())
    }
}
