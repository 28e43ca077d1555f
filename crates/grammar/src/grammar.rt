//! The recursive reading of the prefix text.
ghost use Rattle.std.specs.Prelude.{◌≡◌, ◌+◌, ◌≤◌};
ghost use Rattle.grammar.specs.Reading.{Reads, Room};
ghost use Rattle.grammar.specs.Sources.{FewPlaces};

use crate::flaw::Flawed;
use crate::limits::{MOST_OPEN, MOST_SETS};
use crate::plan::Plan;
use crate::source::{Opened, Opening, Source};
use crate::step::Build;

// Reads the formula that is due here, where `left` formulas more may be open at once and `depth` letters are bound.
// Plans its steps, and answers where the item behind it is. Each call spends one of the formulas that may be open, so
// that a text cannot use up the stack.
pub(crate) fn read_formula(
    source: &Source,
    plan: &mut Plan,
    at: usize,
    left: u8,
    depth: usize,
) -> Result<usize, Flawed>
    requires few { FewPlaces source.now.items.now }
    requires sets { source.now.sets ≤ MOST_SETS }
    requires nesting { depth + left ≤ MOST_OPEN }
    requires room { Room source.now plan.old at }
    ensures reads { Reads source.now left depth at plan.old plan.new result }
    ensures owner { plan.new.steps.ghost_name ≡ plan.old.steps.ghost_name }
{
    let Opened { place, opening } = source.opening(at, left)?;
    match opening {
        Opening::Atom { number, places } => {
            let spots = source.variables(at + 1, places)?;
            let many = usize::from(places);
            plan.place(place, number, &spots[..many], depth);
            Ok(at + 1 + many)
        }
        Opening::Denial => {
            let next = read_formula(source, plan, at + 1, left - 1, depth)?;
            plan.push(place, Build::Negate);
            Ok(next)
        }
        Opening::Connective(connective) => {
            let middle = read_formula(source, plan, at + 1, left - 1, depth)?;
            plan.begin_right(place, connective);
            let next = read_formula(source, plan, middle, left - 1, depth)?;
            plan.join(place, connective);
            Ok(next)
        }
        Opening::Quantifier(quantifier) => {
            let variable = source.variable(at + 1)?;
            plan.bind(depth, variable.letter);
            let next = read_formula(source, plan, at + 2, left - 1, depth + 1)?;
            plan.quantify(place, quantifier, variable);
            Ok(next)
        }
    }
}
