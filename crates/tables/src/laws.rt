//! The theorem about counts of states, on the contract of a function that a program can call.
ghost use Rattle.std.specs.Prelude.{◌≡◌, ℕ};
ghost use Rattle.words.specs.Automata.{SameReach};
ghost use Rattle.words.specs.Residuals.{Count, MoreThan};

use crate::kind::Kind;

/// Computes nothing: its contract says of every kind that words do not lead to exactly k states and to more than k,
/// and that two counts of the states reached are one.
#[tactic(auto, using(words::proofs::Counts::never_both, words::proofs::Counts::one_count, crate::proofs::Whole::reach_equality))]
pub fn laws_of_counts<K: Kind>(_kind: &K)
    ensures never_both { (n k : ℕ) → Count n (SameReach (K.Kind.moves _kind.now)) k → MoreThan n (SameReach (K.Kind.moves _kind.now)) k → ⊥ }
    ensures one_count { (n j k : ℕ) → Count n (SameReach (K.Kind.moves _kind.now)) j → Count n (SameReach (K.Kind.moves _kind.now)) k → j ≡ k }
{}
