//! Making one call on a tray.
ghost use Rattle.tray.specs.Memory.{SameMemory};
ghost use Rattle.calls.specs.Buffers.{held};
ghost use Rattle.calls.specs.Lent.{lent_by};
ghost use Rattle.calls.specs.Making.{Makes};
ghost use Rattle.calls.specs.Promise.{Continues};

use crate::call::{Call, Reply};
use crate::memory::{Output, Work};
use books::Book;
use tray::Tray;

// The call of the tray by that name.
fn ask<
    B: Book,
    const STATES: usize,
    const PAIRS: usize,
    const SETS: usize,
    const LINKS: usize,
    const COLUMNS: usize,
    const BYTES: usize,
>(
    book: &B,
    tray: &mut Tray,
    work: &mut Work<STATES, PAIRS, SETS, LINKS>,
    output: &mut Output<COLUMNS, BYTES>,
    call: Call,
) -> Reply
    ensures makes { Makes (lent_by STATES PAIRS SETS LINKS) (B.Book.size book.now) (B.Book.automaton book.now) (B.Book.holds book.now) call.entry tray.old.control tray.old.tables.now (held output.old) tray.new.control tray.new.tables.now (held output.new) result }
    ensures owners { SameMemory tray.old tray.new }
{
    let Work {
        states,
        pairs,
        sets,
        links,
    } = work;
    let Output {
        witness,
        counterexample,
        text,
    } = output;
    let links = links.as_flattened_mut();
    match call {
        Call::Place(predicate, listed) => Reply::from(tray.place(
            book, predicate, listed, states, links,
        )),
        Call::Single(set) => Reply::from(tray.single(set)),
        Call::Negate => Reply::from(tray.negate()),
        Call::Both => Reply::from(tray.both(pairs, links)),
        Call::Either => Reply::from(tray.either(pairs, links)),
        Call::Hide(set) => Reply::from(tray.hide(set, sets, links)),
        Call::Drop => Reply::from(tray.drop()),
        Call::Save => Reply::from(tray.save(text)),
        Call::Judge => Reply::from(tray.judge(witness, counterexample)),
    }
}

/// Makes one call on the tray, whatever it holds. The tray's own call of that name says what it does to any tables; on tables
/// of formulas it is a step of a run. Predicates are those of the book.
pub fn make<
    B: Book,
    const STATES: usize,
    const PAIRS: usize,
    const SETS: usize,
    const LINKS: usize,
    const COLUMNS: usize,
    const BYTES: usize,
>(
    book: &B,
    tray: &mut Tray,
    work: &mut Work<STATES, PAIRS, SETS, LINKS>,
    output: &mut Output<COLUMNS, BYTES>,
    call: Call,
) -> Reply
    ensures step { Continues (lent_by STATES PAIRS SETS LINKS) (B.Book.size book.now) (B.Book.automaton book.now) (B.Book.holds book.now) call.entry tray.old.control tray.old.tables.now (held output.old) tray.new.control tray.new.tables.now (held output.new) result }
    ensures makes { Makes (lent_by STATES PAIRS SETS LINKS) (B.Book.size book.now) (B.Book.automaton book.now) (B.Book.holds book.now) call.entry tray.old.control tray.old.tables.now (held output.old) tray.new.control tray.new.tables.now (held output.new) result }
    ensures owners { SameMemory tray.old tray.new }
{
    ask(book, tray, work, output, call)
}
