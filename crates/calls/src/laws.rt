//! The theorems about runs, on the contract of a function that a program can call.
ghost use Rattle.calls.specs.RunLaws.{RunLaws};

use books::Book;

/// Computes nothing: its contract says of every book that a pile owes one reply to a call and is left in one way, so that
/// what `replay` promises is all that can be.
pub fn laws_of_runs<B: Book>(_book: &B)
    ensures { RunLaws (B.Book.holds _book.now) }
{}
