//! Sets of table states, as bits.
ghost use Rattle.std.specs.Prelude.{◌≡◌, ℕ, ◌<◌, Decides};
ghost use Rattle.words.specs.Sets.{Member};
ghost use Rattle.hiding.specs.StateSets.{Has, Meet, no_states, inserted};

use words::is_member;

/// A set of states below 512: state q is bit q % 64 of word q / 64.
#[derive(Clone, Copy, PartialEq, Eq, Debug, Drop)]
pub struct StateSet {
    words: [u64; 8],
}

/// How many states a set can tell apart: 0 and on.
pub const STATES: u16 = 512;

// Whether two words have a bit in common.
#[tactic(auto, using(crate::proofs::Bitwise::words_share))]
fn words_meet(a: u64, b: u64) -> bool
    ensures { Decides result ((p : ℕ) × (p < 64) × Member p a × Member p b) }
{
    a & b != 0
}

impl StateSet {
    /// The set with no state.
    pub fn empty() -> StateSet
        ensures { result ≡ no_states }
    {
        StateSet { words: [0; 8] }
    }

    /// The words of the set: bit b of word k is the state 64 * k + b.
    pub(crate) fn words(&self) -> &[u64; 8]
        ensures { result.now ≡ self.now.words }
    {
        &self.words
    }

    /// Whether a state is in the set; none from 512 on is.
    pub fn contains(&self, state: u16) -> bool
        ensures { Decides result (Has self.now state) }
    {
        state < STATES && is_member(self.words[usize::from(state / 64)], usize::from(state % 64))
    }

    /// Puts a state into the set; one from 512 on changes nothing.
    pub fn insert(&mut self, state: u16)
        ensures { self.new ≡ inserted self.old state }
    {
        if state < STATES {
            self.words[usize::from(state / 64)] |= 1u64 << (state % 64);
        }
    }

    /// Whether the two sets have a state in common.
    pub fn meets(&self, other: &StateSet) -> bool
        ensures { Decides result (Meet self.now other.now) }
    {
        self.words
            .iter()
            .zip(&other.words)
            .any(|(a, b)| words_meet(*a, *b))
    }
}
