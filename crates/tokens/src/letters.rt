//! The letters of a text and their sets.
ghost use Rattle.std.specs.Prelude.{◌≡◌, ◌+◌, ◌<◌, ◌≤◌, ◌==◌, take, position};
ghost use Rattle.tokens.specs.Numbering.{set_of, noted};

use crate::listing::LONGEST;

/// The letters that have appeared, in the order of their sets. There are 52 at most; room for one to each byte of a text
/// needs no count of them, and costs a kilobyte of the stack.
#[derive(Drop)]
pub(crate) struct Letters {
    pub(crate) seen: [u8; LONGEST],
    pub(crate) many: usize,
}

impl Letters {
    // Where a letter is among those that have appeared.
    fn find(&self, letter: u8) -> Option<usize>
        requires { self.now.many ≤ LONGEST }
        ensures { result ≡ position (λ known. known == letter) (take self.now.many self.now.seen) }
    {
        self.seen[..self.many]
            .iter()
            .position(|known| *known == letter)
    }

    // The set of a letter: its own, if it has appeared, or the next.
    pub(crate) fn set_of(&mut self, letter: u8) -> u16
        requires { self.old.many < LONGEST }
        ensures set { result ≡ set_of letter (take self.old.many self.old.seen) }
        ensures seen { take self.new.many self.new.seen ≡ noted letter (take self.old.many self.old.seen) }
        ensures few { self.new.many ≤ self.old.many + 1 }
    {
        match self.find(letter) {
            Some(set) => set as u16,
            None => {
                let next = self.many;
                self.seen[next] = letter;
                self.many += 1;
                next as u16
            }
        }
    }
}
