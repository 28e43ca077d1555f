//! Reading a text.
ghost use Rattle.std.specs.Prelude.{◌≡◌, length};
ghost use Rattle.tray.specs.Memory.{SameMemory};
ghost use Rattle.calls.specs.Lent.{lent_by};
ghost use Rattle.reading.specs.Reading.{ReadsText};

use crate::building::build;
use crate::fault::Fault;
use books::NamedBook;
use calls::Work;
use grammar::{Step, plan_text};
use tray::Tray;

/// Reads a claim's text, and puts its table on top of the tray. Answers the counts of the last building call, or why
/// the text is refused; the tray is then as it was. The memory for steps needs three for each byte of the text and
/// 16 more. What it and the work memory hold afterwards is left open.
pub fn read<
    B: NamedBook,
    const STATES: usize,
    const PAIRS: usize,
    const SETS: usize,
    const LINKS: usize,
>(
    book: &B,
    text: &[u8],
    tray: &mut Tray,
    work: &mut Work<STATES, PAIRS, SETS, LINKS>,
    steps: &mut [Step],
) -> Result<(usize, usize), Fault>
    ensures reads { ReadsText (B.NamedBook.numbered book.now) (B.Book.size book.now) (B.Book.automaton book.now) (B.Book.holds book.now) (lent_by STATES PAIRS SETS LINKS) (length steps.old) text.now tray.old.control tray.old.tables.now tray.new.control tray.new.tables.now result }
    ensures owners { SameMemory tray.old tray.new }
    ensures room { length steps.new ≡ length steps.old }
{
    let count = plan_text(book, text, tray.sets(), steps)?;
    build(book, tray, work, &steps[..count])
}
