//! The theorem about the worked examples, on the contract of a function that a program can call.
ghost use Rattle.worked.specs.Rows.{WorkedRows};

/// Computes nothing: its contract says of each worked example that its text has no fault and reads as a claim, that each
/// building call of the claim passes its checks with a budget of 64 and a depth of 8, and that the verdict, the number of
/// states and the two words are those that the rules give.
pub fn laws_of_rows()
    ensures { WorkedRows }
{}
