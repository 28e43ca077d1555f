//! Columns with one bit turned.
ghost use Rattle.std.specs.Prelude.{◌≡◌, ◌<◌};
ghost use Rattle.words.specs.Hiding.{turned};

/// The place of a set's bit in a column.
#[derive(Clone, Copy)]
pub struct Place {
    pub set: u8,
    ghost low: { set < 8 },
}

impl Place {
    /// The column with this bit turned to 0.
    #[tactic(auto, using(crate::proofs::TurnedBits::turned_off))]
    pub fn off(&self, column: u8) -> u8
        ensures { result ≡ turned self.now.set 0 column }
    {
        column & !(1 << self.set)
    }

    /// The column with this bit turned to 1.
    #[tactic(auto, using(crate::proofs::TurnedBits::turned_on))]
    pub fn on(&self, column: u8) -> u8
        ensures { result ≡ turned self.now.set 1 column }
    {
        column | (1 << self.set)
    }
}
