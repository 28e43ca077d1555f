//! A tray, and the memory that is lent to its calls.
ghost use Rattle.std.specs.Prelude.{◌≡◌, IfOk, take};
ghost use Rattle.books.specs.Standard.{count, automaton, holds};
ghost use Rattle.calls.specs.Buffers.{held};
ghost use Rattle.calls.specs.Lent.{lent_for};
ghost use Rattle.calls.specs.Making.{Makes};
ghost use Rattle.calls.specs.Promise.{Continues};
ghost use Rattle.explain.specs.Shown.{Opened, Shows};
ghost use Rattle.explain.specs.Asked.{Asks, few_places};

use books::Standard;
use calls::{Call, Output, Reply, Settings, WorkFor, make};
use grammar::Build;
use tray::{Refusal, Tray};

/// Memory for 4 sets, a budget of 64 states and a depth of 8 tables: ten slots of 64 rows of 17 numbers.
pub const NUMBERS: usize = 10_880;

/// The most states that a call may meet: the work memory has a record of each kind for each, and eight links.
pub const STATES: usize = 64;

// A word's columns are fewer than the states of a budget, which are 512 at most.
const COLUMNS: usize = 512;

// The longest text of a table: the line of names over four sets, and for each state a line of eighteen numbers of two
// digits.
const BYTES: usize = 68 + STATES * 54;

/// A tray of its own for one claim.
#[derive(Drop)]
pub struct Desk<'m> {
    tray: Tray<'m, 'm>,
    work: WorkFor<STATES>,
    output: Output<COLUMNS, BYTES>,
}

impl<'m> Desk<'m> {
    /// A tray that is open with these settings.
    pub fn opened(memory: &'m mut [u16], settings: Settings) -> Result<Desk<'m>, Refusal>
        ensures { IfOk result (λ desk. Opened settings desk.tray.control) }
    {
        let Settings {
            sets,
            budget,
            depth,
        } = settings;
        let mut tray = Tray::within(memory, sets, budget, depth);
        tray.open(sets, budget, depth)?;
        Ok(Desk {
            tray,
            work: WorkFor::new(),
            output: Output::new(),
        })
    }

    /// Makes a call.
    pub fn make(&mut self, call: Call) -> Reply
        ensures step { Continues (lent_for 64) count automaton holds call.entry self.old.tray.control self.old.tray.tables.now (held self.old.output) self.new.tray.control self.new.tray.tables.now (held self.new.output) result }
        ensures makes { Makes (lent_for 64) count automaton holds call.entry self.old.tray.control self.old.tray.tables.now (held self.old.output) self.new.tray.control self.new.tray.tables.now (held self.new.output) result }
    {
        let Desk { tray, work, output } = self;
        make(&Standard, tray, work, output, call)
    }

    /// The first so many columns of the witness.
    pub fn witness(&self, columns: Option<usize>) -> Option<&[u8]>
        ensures { Shows self.now.output.witness columns result }
    {
        self.output.witness.get(..columns?)
    }

    /// The first so many columns of the counterexample.
    pub fn counterexample(&self, columns: Option<usize>) -> Option<&[u8]>
        ensures { Shows self.now.output.counterexample columns result }
    {
        self.output.counterexample.get(..columns?)
    }

    /// The first so many bytes of the saved table.
    pub fn saved(&self, bytes: usize) -> &[u8]
        ensures { result.now ≡ take bytes self.now.output.text }
    {
        let text = self.output.text.as_slice();
        &text[..bytes.min(text.len())]
    }
}

/// The call of a planned step.
pub fn call_of(build: &Build) -> Call<'_>
    ensures { few_places build.now → Asks build.now result }
{
    match build {
        Build::Place {
            predicate,
            sets,
            places,
        } => Call::Place(*predicate, &sets[..usize::from(*places).min(4)]),
        Build::Single(set) => Call::Single(*set),
        Build::Negate => Call::Negate,
        Build::Both => Call::Both,
        Build::Either => Call::Either,
        Build::Hide(set) => Call::Hide(*set),
    }
}
