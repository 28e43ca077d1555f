//! The calls that change or remove the top table without exploring.
ghost use Rattle.std.specs.Prelude.{◌≡◌, OnOk};
ghost use Rattle.tray.specs.Memory.{SameMemory};
ghost use Rattle.tray.specs.Calls.{Negates, Drops};
ghost use Rattle.tray.specs.Flipped.{FlipsTop};

use crate::refusal::Refusal;
use crate::tray::Tray;

impl<'m, 's> Tray<'m, 's> {
    /// The top becomes its negation. Met and kept are the number of its states, which stays.
    pub fn negate(&mut self) -> Result<(usize, usize), Refusal>
        ensures negates { Negates self.old.control self.old.tables.now self.new.control self.new.tables.now result }
        ensures marks { OnOk result (FlipsTop self.old.control self.old.tables.now self.new.tables.now) }
        ensures spare { self.new.spare.now ≡ self.old.spare.now }
        ensures owners { SameMemory self.old self.new }
    {
        let Tray {
            control,
            tables,
            spare: _,
        } = self;
        if control.count < 1 {
            return Err(Refusal::TooFewTables);
        }
        let top = control.count - 1;
        let size = usize::from(control.sizes[top]);
        control.turn_over(tables, top);
        Ok((size, size))
    }

    /// Removes the top table.
    pub fn drop(&mut self) -> Result<(), Refusal>
        ensures drops { Drops self.old.control self.old.tables.now self.new.control self.new.tables.now result }
        ensures spare { self.new.spare.now ≡ self.old.spare.now }
        ensures owners { SameMemory self.old self.new }
    {
        let Tray {
            control,
            tables: _,
            spare: _,
        } = self;
        if control.count < 1 {
            return Err(Refusal::TooFewTables);
        }
        control.count -= 1;
        Ok(())
    }
}
