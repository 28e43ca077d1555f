//! One question to a book: does a predicate hold of the sets that a word codes?
ghost use Rattle.std.specs.Prelude.{◌≡◌};
ghost use Rattle.words.specs.Automata.{accepted};
ghost use Rattle.books.specs.Question.{Answers};

use crate::book::{Book, Predicate};
use std::error::Error;
use std::fmt;
use words::first_outside;

/// Why a question has no answer.
#[derive(Clone, Copy, PartialEq, Eq, Debug)]
pub enum NoAnswer {
    /// The book does not have the predicate.
    NoPredicate,
    /// The column at this position has a bit for a place that the predicate does not have.
    NoColumn(usize),
}

impl fmt::Display for NoAnswer {
    ghost use Rattle.std.specs.Prelude.{Some};
    ghost use Rattle.books.specs.Messages.{no_answer_text};

    ghost output = { λ why. Some (no_answer_text why) };

    fn fmt<W: fmt::Write>(&self, f: &mut fmt::Formatter<W>) -> fmt::Result {
        match self {
            NoAnswer::NoPredicate => write!(f, "the book does not have the predicate"),
            NoAnswer::NoColumn(i) => write!(
                f,
                "the column at position {i} has a bit for a place that the predicate does not have"
            ),
        }
    }
}

impl Error for NoAnswer {}

/// Runs a predicate of the book over a word of place columns. The answer is whether the predicate's relation
/// holds of the finite sets that the word codes. It costs one step for each column.
pub fn ask<B: Book>(book: &B, p: Predicate, word: &[u8]) -> Result<bool, NoAnswer>
    ensures { Answers (B.Book.size book.now) (B.Book.automaton book.now p).places (B.Book.holds book.now p) p word.now result }
{
    if p >= book.count() {
        return Err(NoAnswer::NoPredicate);
    }
    if let Some(i) = first_outside(word, book.places(p)) {
        return Err(NoAnswer::NoColumn(i));
    }
    Ok(run(book, p, word))
}

// Whether the run over a word, from the start, ends in an accepting state.
fn run<B: Book>(book: &B, p: Predicate, word: &[u8]) -> bool
    ensures { result ≡ accepted (B.Book.automaton book.now p) word.now }
{
    let last = word.iter().fold(book.start(p), |state, column| book.step(p, state, *column));
    book.accepts(p, last)
}
