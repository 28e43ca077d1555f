//! Making the steps of a claim on a tray.
ghost use Rattle.std.specs.Prelude.{◌≡◌, ◌≤◌};
ghost use Rattle.tray.specs.Memory.{SameMemory};
ghost use Rattle.calls.specs.Lent.{lent_by};
ghost use Rattle.reading.specs.Stepping.{Steps, Leaves, MakesSteps};

use crate::fault::Fault;
use books::Book;
use calls::Work;
use grammar::{Build, Step};
use tray::{Refusal, Tray};

// Makes one call.
fn make_step<
    B: Book,
    const STATES: usize,
    const PAIRS: usize,
    const SETS: usize,
    const LINKS: usize,
>(
    book: &B,
    tray: &mut Tray,
    work: &mut Work<STATES, PAIRS, SETS, LINKS>,
    build: Build,
) -> Result<(usize, usize), Refusal>
    ensures steps { Steps (lent_by STATES PAIRS SETS LINKS) (B.Book.size book.now) (B.Book.automaton book.now) (B.Book.holds book.now) build tray.old.control tray.old.tables.now tray.new.control tray.new.tables.now result }
    ensures owners { SameMemory tray.old tray.new }
{
    let Work {
        states,
        pairs,
        sets: collections,
        links,
    } = work;
    let links = links.as_flattened_mut();
    match build {
        Build::Place {
            predicate,
            sets,
            places,
        } => {
            let listed = &sets[..usize::from(places).min(4)];
            tray.place(book, predicate, listed, states, links)
        }
        Build::Single(set) => tray.single(set),
        Build::Negate => tray.negate(),
        Build::Both => tray.both(pairs, links),
        Build::Either => tray.either(pairs, links),
        Build::Hide(set) => tray.hide(set, collections, links),
    }
}

// Removes the upper tables, until so many are left.
fn drop_to(tray: &mut Tray, count: usize)
    ensures leaves { count ≤ tray.old.control.count → Leaves count tray.old.control tray.old.tables.now tray.new.control tray.new.tables.now }
    ensures owners { SameMemory tray.old tray.new }
{
    while tray.count() > count && tray.drop().is_ok() {}
}

// Makes the steps in their order, and answers the counts of the last one. Where one is refused, the tables that were
// made are removed.
pub(crate) fn build<
    B: Book,
    const STATES: usize,
    const PAIRS: usize,
    const SETS: usize,
    const LINKS: usize,
>(
    book: &B,
    tray: &mut Tray,
    work: &mut Work<STATES, PAIRS, SETS, LINKS>,
    steps: &[Step],
) -> Result<(usize, usize), Fault>
    ensures builds { MakesSteps (lent_by STATES PAIRS SETS LINKS) (B.Book.size book.now) (B.Book.automaton book.now) (B.Book.holds book.now) steps.now tray.old.control tray.old.tables.now tray.new.control tray.new.tables.now result }
    ensures owners { SameMemory tray.old tray.new }
{
    let below = tray.count();
    let mut counts = (0, 0);
    for step in steps {
        match make_step(book, tray, work, step.build) {
            Ok(answer) => counts = answer,
            Err(why) => {
                drop_to(tray, below);
                return Err(Fault::of_call(why, step.place));
            }
        }
    }
    Ok(counts)
}
