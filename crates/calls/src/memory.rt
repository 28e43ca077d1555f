//! The memory that is lent to calls.
ghost use Rattle.std.specs.Prelude.{◌≡◌, replicate};
ghost use Rattle.hiding.specs.StateSets.{no_states};

use hiding::StateSet;

/// Work memory for calls: so many records of each kind, and so many rows of eight links, of which an exploration needs one
/// for each state that it may meet.
#[derive(Drop)]
pub struct Work<const STATES: usize, const PAIRS: usize, const SETS: usize, const LINKS: usize> {
    pub states: [u16; STATES],
    pub pairs: [(u16, u16); PAIRS],
    pub sets: [StateSet; SETS],
    pub links: [[u16; 8]; LINKS],
}

/// Work memory for every call within a budget of so many states.
pub type WorkFor<const STATES: usize> = Work<STATES, STATES, STATES, STATES>;

impl<const STATES: usize, const PAIRS: usize, const SETS: usize, const LINKS: usize> Work<
    STATES,
    PAIRS,
    SETS,
    LINKS,
> {
    /// Memory in which every number is 0 and every set is empty.
    pub fn new() -> Work<STATES, PAIRS, SETS, LINKS>
        ensures states { result.states ≡ replicate STATES 0 }
        ensures pairs { result.pairs ≡ replicate PAIRS (0, 0) }
        ensures sets { result.sets ≡ replicate SETS no_states }
        ensures links { result.links ≡ replicate LINKS (replicate 8 0) }
    {
        Work {
            states: [0; STATES],
            pairs: [(0, 0); PAIRS],
            sets: [StateSet::empty(); SETS],
            links: [[0; 8]; LINKS],
        }
    }
}

/// Buffers for what judge and save write: two for words, of a byte for each column, and one for the text of a table.
#[derive(Drop)]
pub struct Output<const COLUMNS: usize, const BYTES: usize> {
    pub witness: [u8; COLUMNS],
    pub counterexample: [u8; COLUMNS],
    pub text: [u8; BYTES],
}

impl<const COLUMNS: usize, const BYTES: usize> Output<COLUMNS, BYTES> {
    /// Buffers in which every byte is 0.
    pub fn new() -> Output<COLUMNS, BYTES>
        ensures witness { result.witness ≡ replicate COLUMNS 0 }
        ensures counterexample { result.counterexample ≡ replicate COLUMNS 0 }
        ensures text { result.text ≡ replicate BYTES 0 }
    {
        Output {
            witness: [0; COLUMNS],
            counterexample: [0; COLUMNS],
            text: [0; BYTES],
        }
    }
}
