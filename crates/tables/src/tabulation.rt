//! From a kind of state to the table of the words that it accepts.
ghost use Rattle.std.specs.Prelude.{◌+◌, ◌*◌, ◌≤◌, length, drop, Decides};
ghost use Rattle.words.specs.Rows.{width};
ghost use Rattle.tables.specs.Classing.{Closed};
ghost use Rattle.tables.specs.Explored.{Past};
ghost use Rattle.tables.specs.Merged.{Merged};
ghost use Rattle.tables.specs.Room.{SameOwners};
ghost use Rattle.tables.specs.Tabulated.{Elsewhere, Tabulates};

use crate::exploration::{Unexplored, explore};
use crate::kind::Kind;
use crate::memory::{Limits, Memory};
use crate::merging::merge_states;
use words::Rows;

/// How many states were met while exploring, and how many were kept after merging.
#[derive(Clone, Copy, PartialEq, Eq, Debug)]
pub struct Counts {
    pub met: usize,
    pub kept: usize,
}

// Whether there is a slot for a table of so many states from `base` on.
fn has_slot(limits: Limits, tables: &[u16], base: usize) -> bool
    requires sets { limits.sets ≤ 8 }
    requires few { limits.budget ≤ 512 }
    ensures { Decides result (base + limits.budget * width limits.sets ≤ length tables.now) }
{
    tables
        .get(base..)
        .is_some_and(|slot| slot.len() >= limits.budget * limits.width())
}

// Merges explored rows; the links past those of the records are its work memory.
fn merge_rows(
    raw: &Rows,
    budget: usize,
    links: &mut [u16],
    tables: &mut [u16],
    base: usize,
) -> usize
    requires few { (raw.now.states ≤ budget) × (budget ≤ 512) }
    requires links { 8 * budget ≤ length links.old }
    requires closed { Closed raw.now }
    requires slot { base + budget * width raw.now.places ≤ length tables.old }
    ensures few { result ≤ raw.now.states }
    ensures merged { Merged raw.now.places raw.now.states raw.now.cells.now result (drop base tables.new) }
    ensures elsewhere { Elsewhere base (result * width raw.now.places) tables.old tables.new }
{
    let (_parents, rest) = links.split_at_mut(2 * budget);
    let (class, rest) = rest.split_at_mut(budget);
    let (fresh, numbers) = rest.split_at_mut(budget);
    usize::from(merge_states(raw, class, fresh, numbers, tables, base))
}

/// Explores a kind of state and merges what no word tells apart: writes the table of the words that the kind accepts
/// from `base` on in `tables`, one row for each residual, and answers the two counts.
///
/// The memory is work memory: its rows hold the raw rows. The cost is that of `explore`, and then at most one look for
/// each pair of states and column in each round that splits a class.
pub fn tabulate<K: Kind>(
    kind: &K,
    limits: Limits,
    memory: &mut Memory<K::State>,
    tables: &mut [u16],
    base: usize,
) -> Result<Counts, Unexplored>
    ensures found { Tabulates (K.Kind.moves kind.now) limits.sets limits.budget base memory.old.records.now memory.old.links.now memory.old.rows.now tables.old memory.new.records.now memory.new.links.now memory.new.rows.now tables.new result }
    ensures owners { SameOwners memory.old memory.new }
    ensures past { Past limits.sets limits.budget memory.old.rows.now memory.new.rows.now }
{
    if !memory.has_room(limits) || !has_slot(limits, tables, base) {
        return Err(Unexplored::NoRoom);
    }
    let met = explore(kind, limits, memory)?;
    let rows = &mut *memory.rows;
    let raw = Rows {
        places: limits.sets,
        states: met as u16,
        cells: rows,
    };
    let kept = merge_rows(&raw, limits.budget, memory.links, tables, base);
    Ok(Counts { met, kept })
}
