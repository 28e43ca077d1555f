//! The promise over any run of calls, on one function.
ghost use Rattle.std.specs.Prelude.{◌≡◌, length};
ghost use Rattle.tray.specs.Memory.{SameMemory};
ghost use Rattle.calls.specs.Buffers.{held};
ghost use Rattle.calls.specs.Lent.{lent_by};
ghost use Rattle.calls.specs.Promise.{Replays};

use crate::call::{Call, Reply};
use crate::making::make;
use crate::memory::{Output, Work};
use books::Book;
use tray::{Refusal, Tray};

/// What a tray is opened with: the number of sets, the budget of states, and the depth of tables.
#[derive(Clone, Copy, PartialEq, Eq, Debug)]
pub struct Settings {
    pub sets: usize,
    pub budget: usize,
    pub depth: usize,
}

/// Opens the tray, makes the calls in their order whatever they are replied, makes the next one, and answers the reply to
/// it; or it answers why open was refused.
pub fn replay<
    B: Book,
    const STATES: usize,
    const PAIRS: usize,
    const SETS: usize,
    const LINKS: usize,
    const COLUMNS: usize,
    const BYTES: usize,
>(
    book: &B,
    settings: Settings,
    tray: &mut Tray,
    calls: &[Call],
    next: Call,
    work: &mut Work<STATES, PAIRS, SETS, LINKS>,
    output: &mut Output<COLUMNS, BYTES>,
) -> Result<Reply, Refusal>
    ensures replays { Replays settings (lent_by STATES PAIRS SETS LINKS) (B.Book.size book.now) (B.Book.automaton book.now) (B.Book.holds book.now) (length tray.old.spare.now) tray.old.control tray.old.tables.now (held output.old) calls.now next.entry tray.new.control tray.new.tables.now (held output.new) result }
    ensures owners { SameMemory tray.old tray.new }
{
    tray.open(settings.sets, settings.budget, settings.depth)?;
    for call in calls {
        make(book, tray, work, output, *call);
    }
    Ok(make(book, tray, work, output, next))
}
