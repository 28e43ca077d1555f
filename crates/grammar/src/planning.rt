//! Planning the steps of a text.
ghost use Rattle.std.specs.Prelude.{◌≡◌, ◌+◌, ◌*◌, ◌≤◌, [], length};
ghost use Rattle.grammar.specs.Planning.{Plans};
ghost use Rattle.grammar.specs.Reading.{PlansFormula, ReadsAll};
ghost use Rattle.grammar.specs.Written.{Notes};
ghost use Rattle.grammar.specs.Sources.{FewPlaces};

use crate::flaw::{Flaw, Flawed};
use crate::grammar::read_formula;
use crate::limits::{MOST_OPEN, MOST_SETS};
use crate::plan::Plan;
use crate::source::Source;
use crate::step::Step;
use books::NamedBook;
use tokens::{Item, LONGEST, Sense, list_items};

// Plans the steps of the one formula that the items are, and then those of its free positions.
fn plan_formula(source: &Source, plan: &mut Plan) -> Result<(), Flawed>
    requires few { FewPlaces source.now.items.now }
    requires sets { source.now.sets ≤ MOST_SETS }
    requires room { 3 * length source.now.items.now + 16 ≤ length plan.old.steps.now }
    requires empty { plan.old.used ≡ 0 }
    requires none { Notes plan.old.free [] }
    ensures plans { PlansFormula source.now plan.old plan.new result }
    ensures owner { plan.new.steps.ghost_name ≡ plan.old.steps.ghost_name }
{
    let next = read_formula(source, plan, 0, MOST_OPEN as u8, 0)?;
    source.finish(next)?;
    for set in 0..source.sets {
        if let Some(place) = plan.free[usize::from(set)] {
            plan.alone(place, set);
        }
    }
    Ok(())
}

// Plans the steps of the items from the front of the memory on, and answers how many they are.
fn plan_items(source: &Source, steps: &mut [Step]) -> Result<usize, Flawed>
    requires few { FewPlaces source.now.items.now }
    requires sets { source.now.sets ≤ MOST_SETS }
    requires room { 3 * length source.now.items.now + 16 ≤ length steps.old }
    ensures { ReadsAll source.now.sets source.now.end source.now.items.now steps.old steps.new result }
{
    let mut plan = Plan {
        steps,
        used: 0,
        bound: [0; MOST_OPEN],
        free: [None; MOST_SETS],
    };
    plan_formula(source, &mut plan)?;
    Ok(plan.used)
}

/// Reads a text over so many sets, eight at most, as the book understands its names, and writes the steps that build
/// it to the front of lent memory. Answers how many they are, or what is wrong with the text. The memory needs three
/// steps for each byte of the text and 16 more. Behind the steps it stays as it was; a fault of the text's items leaves
/// its first three steps for each byte open.
pub fn plan_text<B: NamedBook>(
    book: &B,
    text: &[u8],
    sets: usize,
    steps: &mut [Step],
) -> Result<usize, Flawed>
    ensures { Plans (B.NamedBook.numbered book.now) (B.Book.automaton book.now) sets text.now steps.old steps.new result }
{
    let mut items = [Item {
        place: 0,
        sense: Sense::Wrong,
    }; LONGEST];
    let Some(count) = list_items(book, text, &mut items) else {
        return Err(Flawed {
            flaw: Flaw::TooLong,
            place: 0,
        });
    };
    if steps.len() < 3 * text.len() + 16 {
        return Err(Flawed {
            flaw: Flaw::NoRoom,
            place: 0,
        });
    }
    let source = Source {
        items: &items[..count],
        end: text.len(),
        sets: sets.min(MOST_SETS) as u8,
    };
    plan_items(&source, steps)
}
