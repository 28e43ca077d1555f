//! Loading a saved table, placing it on a new tray, and saving it again.
ghost use Rattle.std.specs.Prelude.{◌≡◌, [], ◌∷◌, IfOk, length, take};
ghost use Rattle.tray.specs.Memory.{SameMemory};
ghost use Rattle.calls.specs.Buffers.{held};
ghost use Rattle.returning.specs.Returning.{Replies, Returns, SameBytes, SavesAgain};

use books::Book;
use calls::{Call, Output, Reply, Settings, WorkFor, replay};
use checks::layer_of;
use loading::{Fault, Loaded, load};
use tray::{Refusal, Tray};

/// Why a text did not come as far as being saved again: it was not loaded, or the tray was not opened.
#[derive(Clone, Copy, PartialEq, Eq, Debug)]
pub enum Unreturned {
    NotLoaded(Fault),
    NotOpened(Refusal),
}

impl Unreturned {
    ghost use Rattle.returning.specs.Reasons.{unreturned_number, unreturned_layer, unreturned_line};

    /// The number of the check that failed.
    pub fn number(self) -> u8
        ensures { result ≡ unreturned_number self }
    {
        match self {
            Unreturned::NotLoaded(fault) => fault.number(),
            Unreturned::NotOpened(why) => why.number(),
        }
    }

    /// The layer of that check.
    pub fn layer(self) -> u8
        ensures { result ≡ unreturned_layer self }
    {
        layer_of(self.number())
    }

    /// The line of the text at fault, counted from 1; 0 where no one line is.
    pub fn line(self) -> usize
        ensures { result ≡ unreturned_line self }
    {
        match self {
            Unreturned::NotLoaded(fault) => fault.line,
            Unreturned::NotOpened(_) => 0,
        }
    }
}

impl From<Fault> for Unreturned {
    ghost use Rattle.returning.specs.declared.again.Unreturned.TheVariants.{NotLoaded};

    ghost from_gives = { λ fault e. e ≡ NotLoaded fault };

    fn from(fault: Fault) -> Unreturned {
        Unreturned::NotLoaded(fault)
    }
}

impl From<Refusal> for Unreturned {
    ghost use Rattle.returning.specs.declared.again.Unreturned.TheVariants.{NotOpened};

    ghost from_gives = { λ why e. e ≡ NotOpened why };

    fn from(why: Refusal) -> Unreturned {
        Unreturned::NotOpened(why)
    }
}

// The sets of a tray for a table over as many places.
const ALL_SETS: [u8; 4] = [0, 1, 2, 3];

// Places the loaded predicate on the listed sets of a tray that is opened for as many sets as it has places, and saves the
// top.
fn place_and_save<const STATES: usize, const COLUMNS: usize, const BYTES: usize>(
    book: &Loaded,
    listed: &[u8],
    tray: &mut Tray,
    budget: usize,
    work: &mut WorkFor<STATES>,
    output: &mut Output<COLUMNS, BYTES>,
) -> Result<Reply, Refusal>
    requires { listed.now ≡ take book.now.places (0 ∷ (1 ∷ (2 ∷ (3 ∷ [])))) }
    ensures saves { SavesAgain STATES budget book.now (length tray.old.spare.now) tray.old.control tray.old.tables.now (held output.old) tray.new.control tray.new.tables.now (held output.new) result }
    ensures owners { SameMemory tray.old tray.new }
{
    let settings = Settings {
        sets: usize::from(book.places(0)),
        budget,
        depth: 1,
    };
    let calls = [Call::Place(0, listed)];
    replay(book, settings, tray, &calls, Call::Save, work, output)
}

/// Loads a text, opens the tray with a set for each place, a budget and room for one table, places the loaded predicate on
/// the sets in their order, and saves the top. Answers the reply to save; where place was refused, there is no top.
pub fn save_again<const STATES: usize, const COLUMNS: usize, const BYTES: usize>(
    text: &[u8],
    name: &[u8],
    memory: &mut [u16],
    place: &mut Loaded,
    tray: &mut Tray,
    budget: usize,
    work: &mut WorkFor<STATES>,
    output: &mut Output<COLUMNS, BYTES>,
) -> Result<Reply, Unreturned>
    ensures returns { Returns STATES text.now name.now budget memory.old place.old (length tray.old.spare.now) tray.old.control tray.old.tables.now (held output.old) memory.new place.new tray.new.control tray.new.tables.now (held output.new) result }
    ensures replies { IfOk result (Replies STATES budget place.new output.old.text output.new.text) }
    ensures same { IfOk result (SameBytes STATES budget text.now output.old.text output.new.text) }
    ensures owners { SameMemory tray.old tray.new }
{
    load(text, memory, name, place)?;
    let listed = &ALL_SETS[..usize::from(place.places(0).min(4))];
    Ok(place_and_save(place, listed, tray, budget, work, output)?)
}
