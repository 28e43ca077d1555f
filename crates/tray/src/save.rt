//! The call that writes the top table as text.
ghost use Rattle.std.specs.Prelude.{◌-◌, ◌≤◌};
ghost use Rattle.words.specs.TableOf.{TableOf};
ghost use Rattle.tray.specs.Calls.{SavesTop};
ghost use Rattle.tray.specs.View.{size_of, rows_of, says};

use crate::refusal::Refusal;
use crate::tray::Tray;
use saving::save_rows;

// The most sets that a table is saved over.
const MOST_SETS: u8 = 4;

impl<'m, 's> Tray<'m, 's> {
    /// Writes the text of the top table at the front of the buffer, and answers how many bytes it has. The bytes behind
    /// it stay as they were.
    pub fn save(&self, buffer: &mut [u8]) -> Result<usize, Refusal>
        ensures saves { SavesTop self.now.control self.now.tables.now buffer.old buffer.new result }
        ensures table { 1 ≤ self.now.control.count → TableOf self.now.control.sets (says self.now.control self.now.tables.now (self.now.control.count - 1)) (rows_of self.now.control self.now.tables.now (self.now.control.count - 1)) (size_of self.now.control (self.now.control.count - 1)) }
    {
        let control = self.control;
        if control.sets > MOST_SETS {
            return Err(Refusal::TooManySets);
        }
        if control.count < 1 {
            return Err(Refusal::TooFewTables);
        }
        let table = control.rows(self.tables, control.count - 1);
        Ok(save_rows(&table, buffer)?)
    }
}
