//! The theorems about the meaning of claims, on the contract of a function that a program can call.
ghost use Rattle.reading.specs.MeaningLaws.{MeaningLaws, WholeLaws};
ghost use Rattle.reading.specs.ReadingLaws.{ReadingLaws};

use books::{Book, NamedBook};

/// Computes nothing: its contract says that letters and sets go one to one in a text, that a position is the only member of
/// its set, and that some word codes whatever the letters stand for; and of every book that the formula which is built of a
/// claim means what the claim means.
pub fn laws_of_meaning<B: Book>(_book: &B)
    ensures meaning { MeaningLaws }
    ensures whole { WholeLaws (B.Book.holds _book.now) }
{}

/// Computes nothing: its contract says of every named book that one answer is owed to a text on a tray.
pub fn laws_of_reading<B: NamedBook>(_book: &B)
    ensures { ReadingLaws (B.NamedBook.numbered _book.now) (B.Book.size _book.now) (B.Book.automaton _book.now) (B.Book.holds _book.now) }
{}
