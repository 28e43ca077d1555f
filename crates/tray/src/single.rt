//! The call that says of a set that it has exactly one member.
ghost use Rattle.std.specs.Prelude.{◌≡◌};
ghost use Rattle.tray.specs.Memory.{SameMemory};
ghost use Rattle.tray.specs.Calls.{Singles};

use crate::asked::Asked;
use crate::refusal::Refusal;
use crate::tray::Tray;
use books::Standard;

// No member, one, and more.
const STATES: usize = 3;

impl<'m, 's> Tray<'m, 's> {
    /// Puts "the set has exactly one member" on top. Three states are met and kept.
    pub fn single(&mut self, set: u8) -> Result<(usize, usize), Refusal>
        ensures singles { Singles set self.old.control self.old.tables.now self.new.control self.new.tables.now result }
        ensures owners { SameMemory self.old self.new }
    {
        let Tray {
            control,
            tables,
            spare,
        } = self;
        if set >= control.sets {
            return Err(Refusal::NoSet);
        }
        if control.count >= control.depth {
            return Err(Refusal::Full);
        }
        if control.budget < STATES {
            return Err(Refusal::TooManyStates);
        }
        let kind = Asked {
            book: &Standard,
            predicate: Standard::ONE,
            listed: &[set],
        };
        // Three states are all that are met, so that a few records and links of its own are enough.
        let held: &mut [u16] = tables;
        let work: &mut [u16] = spare;
        let counts = control.explore(&kind, STATES, &mut [0; 3], &mut [0; 24], work)?;
        let next = control.count;
        Ok(control.land(held, work, next, counts))
    }
}
