//! The call that hides a set.
ghost use Rattle.std.specs.Prelude.{◌≡◌, ◌≤◌, length};
ghost use Rattle.tray.specs.Calls.{hide_checks, HidesTop};
ghost use Rattle.tray.specs.Checks.{Checked};
ghost use Rattle.tray.specs.Memory.{SameMemory};

use crate::refusal::Refusal;
use crate::tray::Tray;
use hiding::StateSet;

impl<'m, 's> Tray<'m, 's> {
    // The checks of hide that come before exploring.
    fn may_hide(&self, set: u8, records: usize, links: usize) -> Result<(), Refusal>
        ensures { Checked (hide_checks self.now.control.sets self.now.control.budget self.now.control.count records links set) result }
    {
        if self.lacks(records, links) {
            return Err(Refusal::NoMemory);
        }
        if set >= self.control.sets {
            return Err(Refusal::NoSet);
        }
        if self.control.count < 1 {
            return Err(Refusal::TooFewTables);
        }
        Ok(())
    }

    /// The top becomes "some finite set in place of this one makes it true". Answers how many sets of states were met,
    /// and how many states were kept. Records and links are work memory.
    pub fn hide(
        &mut self,
        set: u8,
        records: &mut [StateSet],
        links: &mut [u16],
    ) -> Result<(usize, usize), Refusal>
        ensures hides { HidesTop (length records.old) (length links.old) set self.old.control self.old.tables.now self.new.control self.new.tables.now result }
        ensures owners { SameMemory self.old self.new }
    {
        self.may_hide(set, records.len(), links.len())?;
        let Tray {
            control,
            tables,
            spare,
        } = self;
        let top = control.count - 1;
        let held: &mut [u16] = tables;
        let work: &mut [u16] = spare;
        let table = control.table(held, top);
        let counts = control.explore_hidden(&table, set, records, links, work)?;
        Ok(control.land(held, work, top, counts))
    }
}
