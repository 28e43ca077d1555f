//! From a table to the table with one of its sets hidden.
ghost use Rattle.tables.specs.Explored.{Past};
ghost use Rattle.tables.specs.Room.{SameOwners};
ghost use Rattle.hiding.specs.HiddenTable.{TabulatesHidden};

use crate::hidden_rows::HiddenRows;
use crate::state_set::StateSet;
use crate::subsets::Subsets;
use tables::{Counts, Limits, Memory, Unexplored, tabulate};
use words::Table;

/// Hides a bit of a table: writes into `out` the table of the words of which some word that is equal but for the bit of the
/// hidden set, followed by columns with no bit but that one, is accepted by the given table. Where that accepts a word by
/// the sets it codes alone, these are the words whose sets, with some finite set in place of the hidden one, are those of
/// an accepted word. Answers how many sets of states were met, and how many states were kept.
///
/// It needs room for the budget, as `tabulate` does, a hidden set that the table has, and a table of at most 512 states;
/// else there is no room, and nothing is changed. The memory is work memory.
#[tactic(auto, using(crate::proofs::HiddenFrom::hidden_from))]
pub fn tabulate_hidden(
    table: &Table,
    hidden: u8,
    budget: usize,
    memory: &mut Memory<StateSet>,
    out: &mut [u16],
) -> Result<Counts, Unexplored>
    ensures found { TabulatesHidden table.now.rows hidden budget memory.old out.old memory.new out.new result }
    ensures owners { SameOwners memory.old memory.new }
    ensures past { Past table.now.rows.places budget memory.old.rows.now memory.new.rows.now }
{
    let given = HiddenRows::new(table.rows, hidden).ok_or(Unexplored::NoRoom)?;
    let kind = Subsets {
        table: given,
        closing: given.closing_set(),
    };
    let limits = Limits {
        sets: table.rows.places,
        budget,
    };
    tabulate(&kind, limits, memory, out, 0)
}
