//! The tray itself, and what it keeps true.
ghost use Rattle.std.specs.Prelude.{◌≡◌, ℕ, ◌*◌, ◌<◌, ◌≤◌, ◌⊎◌, length, Decides};
ghost use Rattle.tray.specs.View.{slot, Stands};

use crate::control::Control;

/// A stack of tables over memory that the caller lends in two parts: `depth` slots for live tables, and two slots of
/// work space. A slot has a row for each state of the budget.
#[derive(Drop)]
pub struct Tray<'m, 's> {
    pub(crate) control: Control,
    pub(crate) tables: &'m mut [u16],
    pub(crate) spare: &'s mut [u16],
    ghost few_sets: { control.sets ≤ 8 },
    ghost few_states: { control.budget ≤ 512 },
    ghost few_tables: { control.depth ≤ 16 },
    // an open tray has a budget and a depth, and an empty one has neither
    ghost opened: { (1 ≤ control.sets → (1 ≤ control.budget) × (1 ≤ control.depth)) },
    ghost unopened: { (control.sets ≡ 0 → (control.budget ≡ 0) × (control.depth ≡ 0)) },
    ghost holds: { control.count ≤ control.depth },
    ghost sixteen: { length control.sizes ≡ 16 },
    ghost slots: { control.depth * slot control ≤ length tables.now },
    ghost work: { 2 * slot control ≤ length spare.now },
    ghost live: { ((k : ℕ) → k < control.count → ∥ Stands control tables.now k ∥₁) },
}

impl Tray<'_, '_> {
    /// Over how many sets the tables are; 0 where the tray was never opened.
    pub fn sets(&self) -> usize
        ensures { result ≡ self.now.control.sets }
    {
        usize::from(self.control.sets)
    }

    /// How many tables the tray holds.
    pub fn count(&self) -> usize
        ensures { result ≡ self.now.control.count }
    {
        self.control.count
    }

    // Whether so many records or links are too few to explore with.
    pub(crate) fn lacks(&self, records: usize, links: usize) -> bool
        ensures { Decides result ((records < self.now.control.budget) ⊎ (links < 8 * self.now.control.budget)) }
    {
        records < self.control.budget || links < 8 * self.control.budget
    }
}
