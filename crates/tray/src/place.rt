//! The call that places a predicate.
ghost use Rattle.std.specs.Prelude.{◌≡◌, ℕ, ◌<◌, ◌≤◌, length, MatchOption, slice_index};
ghost use Rattle.tray.specs.Calls.{place_checks, Places};
ghost use Rattle.tray.specs.Checks.{Checked};
ghost use Rattle.tray.specs.Memory.{SameMemory};

use crate::asked::Asked;
use crate::refusal::Refusal;
use crate::tray::Tray;
use books::{Book, Predicate};

// The first listed set that is not below the number of sets, by its place in the list.
fn first_missing(listed: &[u8], sets: u8) -> Option<usize>
    ensures { MatchOption result ((j : ℕ) → j < length listed.now → slice_index listed.now j < sets) (λ j. (j < length listed.now) × (sets ≤ slice_index listed.now j)) }
{
    listed.iter().position(|set| *set >= sets)
}

impl<'m, 's> Tray<'m, 's> {
    // The checks of place that come before exploring.
    fn may_place<B: Book>(
        &self,
        book: &B,
        predicate: Predicate,
        listed: &[u8],
        records: usize,
        links: usize,
    ) -> Result<(), Refusal>
        ensures { Checked (place_checks self.now.control.sets self.now.control.budget self.now.control.depth self.now.control.count records links (B.Book.size book.now) (B.Book.automaton book.now predicate).places predicate listed.now) result }
    {
        if self.lacks(records, links) {
            return Err(Refusal::NoMemory);
        }
        if predicate >= book.count() {
            return Err(Refusal::NoPredicate);
        }
        if listed.len() != usize::from(book.places(predicate)) {
            return Err(Refusal::WrongPlaces);
        }
        if first_missing(listed, self.control.sets).is_some() {
            return Err(Refusal::NoSet);
        }
        if self.control.count >= self.control.depth {
            return Err(Refusal::Full);
        }
        Ok(())
    }

    /// Puts predicate p of the book on the listed sets, in their order, on top; a set may be listed again. Answers how
    /// many states of the book were met, and how many were kept. Records and links are work memory.
    pub fn place<B: Book>(
        &mut self,
        book: &B,
        predicate: Predicate,
        listed: &[u8],
        records: &mut [u16],
        links: &mut [u16],
    ) -> Result<(usize, usize), Refusal>
        ensures places { Places (length records.old) (length links.old) (B.Book.size book.now) predicate (B.Book.automaton book.now predicate) (B.Book.holds book.now predicate) listed.now self.old.control self.old.tables.now self.new.control self.new.tables.now result }
        ensures owners { SameMemory self.old self.new }
    {
        self.may_place(book, predicate, listed, records.len(), links.len())?;
        let Tray {
            control,
            tables,
            spare,
        } = self;
        let kind = Asked {
            book,
            predicate,
            listed,
        };
        let held: &mut [u16] = tables;
        let work: &mut [u16] = spare;
        let counts = control.explore(&kind, control.budget, records, links, work)?;
        let next = control.count;
        Ok(control.land(held, work, next, counts))
    }
}
