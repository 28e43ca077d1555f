//! The theorem about loaded tables, on the contract of a function that a program can call.
ghost use Rattle.returning.specs.LoadedLaws.{LoadedLaws};

use books::Book;
use loading::Loaded;

/// Computes nothing: its contract says of a loaded table that its predicate, placed on sets 0 to k - 1 of any tray over k
/// sets and from any book that has it, has the text that was loaded, and is saved as these bytes.
pub fn laws_of_loaded<B: Book>(_book: &B, _loaded: &Loaded)
    ensures { LoadedLaws (B.Book.holds _book.now) _loaded.now }
{}
