//! A table with one of its sets hidden.
ghost use Rattle.std.specs.Prelude.{◌≡◌, ◌<◌, ◌≤◌, MatchOption};

use crate::state_set::STATES;
use crate::turning::Place;
use words::Rows;

/// The rows of a table, of no more states than a set of states can tell apart, and the place of a set that it has.
#[derive(Clone, Copy)]
pub(crate) struct HiddenRows<'a> {
    pub rows: Rows<'a>,
    pub hidden: Place,
    ghost few: { rows.states ≤ 512 },
    ghost inside: { hidden.set < rows.places },
}

impl<'a> HiddenRows<'a> {
    /// The rows with a set hidden; none where they have no such set, or too many states.
    pub(crate) fn new(rows: Rows<'a>, hidden: u8) -> Option<HiddenRows<'a>>
        ensures { MatchOption result ((hidden < rows.entry.places) × (rows.entry.states ≤ 512) → ⊥) (λ h. (h.rows ≡ rows.entry) × (h.hidden.set ≡ hidden)) }
    {
        if hidden >= rows.places || rows.states > STATES {
            return None;
        }
        let hidden = Place { set: hidden };
        Some(HiddenRows { rows, hidden })
    }
}
