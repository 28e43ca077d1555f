//! The theorem about texts, on the contract of a function that a program can call.
ghost use Rattle.grammar.specs.TextLaws.{TextLaws};

/// Computes nothing: its contract says that a text reads as at most one claim, and that it has no fault exactly when it
/// reads as one within the limits.
pub fn laws_of_texts()
    ensures { TextLaws }
{}
