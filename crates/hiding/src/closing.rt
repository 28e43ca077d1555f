//! The look past a word's end: which states columns with no bit but one lead to acceptance.
ghost use Rattle.std.specs.Prelude.{Decides};
ghost use Rattle.hiding.specs.StateSets.{Has};
ghost use Rattle.hiding.specs.Closings.{Closing, Sound, Marked, Enters, Widens};

use crate::hidden_rows::HiddenRows;
use crate::state_set::StateSet;

impl HiddenRows<'_> {
    // The accepting states.
    fn accepting(&self) -> StateSet
        ensures { Marked self.now self.now.rows.states result }
    {
        let mut marked = StateSet::empty();
        for state in 0..self.rows.states {
            if self.rows.accepts(state) {
                marked.insert(state);
            }
        }
        marked
    }

    // Whether a state is not in the set, and is led into it by a column with no bit, or with the hidden one alone.
    fn joins(&self, set: &StateSet, state: u16) -> bool
        ensures { Decides result ((Has set.now state → ⊥) × Enters self.now set.now state) }
    {
        !set.contains(state)
            && (set.contains(self.rows.step(state, 0))
                || set.contains(self.rows.step(state, self.hidden.on(0))))
    }

    // One round: puts each state that joins into the set, and tells whether there was one.
    fn widen(&self, set: &mut StateSet) -> bool
        requires { Sound self.now set.old }
        ensures { Widens self.now set.old self.now.rows.states set.new result }
    {
        let mut widened = false;
        for state in 0..self.rows.states {
            if self.joins(set, state) {
                set.insert(state);
                widened = true;
            }
        }
        widened
    }

    /// The states from which some columns with no bit but the hidden one lead to an accepting state: the accepting
    /// states, and then, in rounds until a whole round finds none, each state that is led to one of them.
    ///
    /// Each round but the last puts a state into the set, and a set with no state ends the first. So s states cost at
    /// most s rounds of 2 * s looks.
    pub(crate) fn closing_set(&self) -> StateSet
        ensures { Closing self.now result }
    {
        let mut closing = self.accepting();
        'rounds: while self.widen(&mut closing) {}
        closing
    }
}
