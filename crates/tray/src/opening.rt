//! Making a tray, and opening it.
ghost use Rattle.std.specs.Prelude.{◌≡◌, ℕ, ◌+◌, ◌*◌, ◌≤◌, ◌++◌, length};
ghost use Rattle.words.specs.Rows.{width};
ghost use Rattle.tray.specs.Checks.{Checked};
ghost use Rattle.tray.specs.Opening.{Opens, open_checks, tables_part};
ghost use Rattle.tray.specs.Memory.{SameMemory};

use crate::control::{Control, room_for};
use crate::refusal::Refusal;
use crate::tray::Tray;

// Whether a tray can have these settings over so many numbers of table and work memory.
fn fitting(
    sets: usize,
    budget: usize,
    depth: usize,
    tables: usize,
    spare: usize,
) -> Result<(), Refusal>
    ensures { Checked (open_checks sets budget depth tables spare) result }
{
    if sets < 1 || sets > 8 {
        return Err(Refusal::WrongSets);
    }
    if budget < 1 || budget > 512 {
        return Err(Refusal::WrongBudget);
    }
    if depth < 1 || depth > 16 {
        return Err(Refusal::WrongDepth);
    }
    let slot = room_for(sets, budget);
    if tables < depth * slot || spare < 2 * slot {
        return Err(Refusal::NoMemory);
    }
    Ok(())
}

// How many numbers the slots of the tables take, but at most so many; none where a setting is above its range.
fn table_length(sets: usize, budget: usize, depth: usize, most: usize) -> usize
    ensures few { result ≤ most }
    ensures is { result ≡ tables_part sets budget depth most }
{
    if sets > 8 || budget > 512 || depth > 16 {
        return 0;
    }
    most.min(depth * room_for(sets, budget))
}

impl<'m, 's> Tray<'m, 's> {
    /// The empty tray, with no sets, no budget and no depth.
    pub fn over(tables: &'m mut [u16], spare: &'s mut [u16]) -> Tray<'m, 's>
        ensures settings { (result.control.sets ≡ 0) × (result.control.budget ≡ 0) × (result.control.depth ≡ 0) × (result.control.count ≡ 0) }
        ensures owners { (result.tables.ghost_name ≡ tables.entry.ghost_name) × (result.spare.ghost_name ≡ spare.entry.ghost_name) }
        ensures memory { (result.tables.now ≡ tables.old) × (result.spare.now ≡ spare.old) }
    {
        let control = Control {
            sets: 0,
            budget: 0,
            depth: 0,
            count: 0,
            sizes: [0; 16],
        };
        Tray {
            control,
            tables,
            spare,
        }
    }

    /// The empty tray over one memory, cut behind the slots that the tables take under these settings, so that the rest
    /// is work space; where a setting is above its range, all of it is. Open with the same settings finds enough memory
    /// exactly when (depth + 2) slots fit: see `laws_of_opening`.
    pub fn within(memory: &'m mut [u16], sets: usize, budget: usize, depth: usize) -> Tray<'m, 'm>
        ensures settings { (result.control.sets ≡ 0) × (result.control.budget ≡ 0) × (result.control.depth ≡ 0) × (result.control.count ≡ 0) }
        ensures parts { result.tables.now ++ result.spare.now ≡ memory.old }
        ensures whole { length result.tables.now + length result.spare.now ≡ length memory.old }
        ensures cut { length result.tables.now ≡ tables_part sets budget depth (length memory.old) }
    {
        let slots = table_length(sets, budget, depth, memory.len());
        let (tables, spare) = memory.split_at_mut(slots);
        Tray::over(tables, spare)
    }

    /// Opens the tray for claims over so many sets: with no table, a budget of states for each call, and a depth of
    /// tables that it can hold. A tray that was open before is emptied. A refused call changes nothing.
    pub fn open(&mut self, sets: usize, budget: usize, depth: usize) -> Result<(), Refusal>
        ensures opens { Opens sets budget depth (length self.old.tables.now) (length self.old.spare.now) self.old.control self.new.control result }
        ensures memory { (self.new.tables.now ≡ self.old.tables.now) × (self.new.spare.now ≡ self.old.spare.now) }
        ensures owners { SameMemory self.old self.new }
    {
        let Tray {
            control,
            tables,
            spare,
        } = self;
        fitting(sets, budget, depth, tables.len(), spare.len())?;
        control.sets = sets as u8;
        control.budget = budget;
        control.depth = depth;
        control.count = 0;
        Ok(())
    }
}
