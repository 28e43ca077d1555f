//! Theorems about formulas and about memory, on the contracts of functions that a program can call.
ghost use Rattle.tray.specs.FormulaLaws.{FormulaLaws};
ghost use Rattle.tray.specs.OpeningLaws.{OpeningLaws};

use books::Book;

/// Computes nothing: its contract says of every book what the top of a tray tells after each building call, as a
/// formula over finite sets, and what a verdict says about the finite sets that make a formula true.
pub fn laws_of_formulas<B: Book>(_book: &B)
    ensures { FormulaLaws (B.Book.holds _book.now) }
{}

/// Computes nothing: its contract says when one memory has room for a tray, and that a tray keeps that room.
pub fn laws_of_opening()
    ensures { OpeningLaws }
{}
