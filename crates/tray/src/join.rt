//! The calls that make one table of two.
ghost use Rattle.std.specs.Prelude.{◌≡◌, ◌≤◌, length};
ghost use Rattle.tables.specs.declared.pairs.Join.TheVariants.{Both, Either};
ghost use Rattle.tray.specs.Calls.{join_checks, JoinsTables};
ghost use Rattle.tray.specs.Checks.{Checked};
ghost use Rattle.tray.specs.Memory.{SameMemory};

use crate::refusal::Refusal;
use crate::tray::Tray;
use tables::{Join, Pairs};

impl<'m, 's> Tray<'m, 's> {
    // The checks of both and either that come before exploring.
    fn may_join(&self, records: usize, links: usize) -> Result<(), Refusal>
        ensures { Checked (join_checks self.now.control.budget self.now.control.count records links) result }
    {
        if self.lacks(records, links) {
            return Err(Refusal::NoMemory);
        }
        if self.control.count < 2 {
            return Err(Refusal::TooFewTables);
        }
        Ok(())
    }

    // Makes one table of the two upper ones.
    fn join(
        &mut self,
        join: Join,
        records: &mut [(u16, u16)],
        links: &mut [u16],
    ) -> Result<(usize, usize), Refusal>
        ensures joins { JoinsTables join (length records.old) (length links.old) self.old.control self.old.tables.now self.new.control self.new.tables.now result }
        ensures owners { SameMemory self.old self.new }
    {
        self.may_join(records.len(), links.len())?;
        let Tray {
            control,
            tables,
            spare,
        } = self;
        let below = control.count - 2;
        let held: &mut [u16] = tables;
        let work: &mut [u16] = spare;
        let kind = Pairs {
            lower: control.rows(held, below),
            upper: control.rows(held, below + 1),
            join,
        };
        let counts = control.explore(&kind, control.budget, records, links, work)?;
        Ok(control.land(held, work, below, counts))
    }

    /// The two upper tables become one, which accepts a word when both do. Answers how many pairs of states were met,
    /// and how many states were kept. Records and links are work memory.
    pub fn both(
        &mut self,
        records: &mut [(u16, u16)],
        links: &mut [u16],
    ) -> Result<(usize, usize), Refusal>
        ensures joins { JoinsTables Both (length records.old) (length links.old) self.old.control self.old.tables.now self.new.control self.new.tables.now result }
        ensures owners { SameMemory self.old self.new }
    {
        self.join(Join::Both, records, links)
    }

    /// The two upper tables become one, which accepts a word when one at least does; otherwise as `both`.
    pub fn either(
        &mut self,
        records: &mut [(u16, u16)],
        links: &mut [u16],
    ) -> Result<(usize, usize), Refusal>
        ensures joins { JoinsTables Either (length records.old) (length links.old) self.old.control self.old.tables.now self.new.control self.new.tables.now result }
        ensures owners { SameMemory self.old self.new }
    {
        self.join(Join::Either, records, links)
    }
}
