//! What is answered to a question.
use judging::Judgement;

/// The most states that a table can have; the words of a judgement are shorter.
pub(crate) const MOST_STATES: usize = 512;

/// A judgement with its two words, each at the front of its bytes, and 0 behind it.
#[derive(Clone, Copy)]
pub struct Judged {
    pub judgement: Judgement,
    pub witness: [u8; MOST_STATES],
    pub counterexample: [u8; MOST_STATES],
}

/// A refusal has the number, the layer and the place of its fault.
#[derive(Clone, Copy)]
pub enum Answer {
    Refused { number: u8, layer: u8, place: usize },
    Judged(Judged),
}
