//! The theorem about answers, on the contract of a function that a program can call.
ghost use Rattle.deciding.specs.AnswerLaws.{AnswerLaws};

use crate::question::MOST_ASKED;
use books::NamedBook;

/// Computes nothing: its contract says of every named book that one answer is owed to an input, and that its first
/// `MOST_ASKED` bytes decide it.
pub fn laws_of_answers<B: NamedBook>(_book: &B)
    ensures { AnswerLaws MOST_ASKED (B.NamedBook.numbered _book.now) (B.Book.size _book.now) (B.Book.automaton _book.now) (B.Book.holds _book.now) }
{}
