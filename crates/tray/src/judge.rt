//! The call that answers on the top table.
ghost use Rattle.std.specs.Prelude.{◌≡◌, length};
ghost use Rattle.tray.specs.Calls.{JudgesTop};

use crate::refusal::Refusal;
use crate::tray::Tray;
use judging::{Judgement, judge_table};

impl<'m, 's> Tray<'m, 's> {
    /// Whether no sets meet the claim on top, some or all; how many states its table has; and the earliest of the
    /// shortest words that meet it and that fail it, whose lengths are answered and whose columns are written to the
    /// two buffers. Bytes behind a word, and the buffer of a word that is absent, stay as they were.
    pub fn judge(&self, witness: &mut [u8], counterexample: &mut [u8]) -> Result<Judgement, Refusal>
        ensures { JudgesTop self.now.control self.now.tables.now witness.old counterexample.old witness.new counterexample.new result }
    {
        let control = self.control;
        if witness.len() < control.budget || counterexample.len() < control.budget {
            return Err(Refusal::NoBuffer);
        }
        if control.count < 1 {
            return Err(Refusal::TooFewTables);
        }
        let table = control.table(self.tables, control.count - 1);
        judge_table(&table, witness, counterexample).ok_or(Refusal::NoBuffer)
    }
}
