//! Loading a whole text.
ghost use Rattle.std.specs.Prelude.{◌≡◌, ◌≢◌, ℕ, ◌<◌, MatchOption, IfOk, IfErr, length, slice_index};
ghost use Rattle.loading.specs.Cutting.{cut};
ghost use Rattle.loading.specs.Faults.{StandsAt};
ghost use Rattle.loading.specs.Loaded.{text_of};
ghost use Rattle.loading.specs.Whole.{Loads, LoadsSaved};
ghost use Rattle.loading.specs.Rowwise.{TakesRows};

use crate::draft::Draft;
use crate::loaded::Loaded;
use crate::seal::Unsealed;
use crate::unloaded::Unloaded;

/// Why a text is not loaded, and the number of the line at fault, counted from 1; 0 where no one line is.
#[derive(Clone, Copy, PartialEq, Eq, Debug)]
pub struct Fault {
    pub line: usize,
    pub why: Unloaded,
}

impl Fault {
    ghost use Rattle.loading.specs.Faults.{fault_number, fault_layer};

    /// The number of the check that failed.
    pub fn number(self) -> u8
        ensures { result ≡ fault_number self }
    {
        self.why.number()
    }

    /// The layer of that check.
    pub fn layer(self) -> u8
        ensures { result ≡ fault_layer self }
    {
        self.why.layer()
    }
}

// The place of the first byte 10.
fn line_end(text: &[u8]) -> Option<usize>
    ensures { MatchOption result ((i : ℕ) → i < length text.now → slice_index text.now i ≢ 10) (λ i. (i < length text.now) × (slice_index text.now i ≡ 10) × ((j : ℕ) → j < i → slice_index text.now j ≢ 10)) }
{
    text.iter().position(|byte| *byte == b'\n')
}

/// A text up to its first byte 10, that byte included, and what follows.
pub fn cut(text: &[u8]) -> (&[u8], &[u8])
    ensures { (result.0.now, result.1.now) ≡ cut text.now }
{
    match line_end(text) {
        Some(at) => text.split_at(at + 1),
        None => (text, &[]),
    }
}

// Takes the lines of a text, which follow the first one.
fn take_rows(draft: Draft, memory: &mut [u16], text: &[u8]) -> Result<Draft, Fault>
    ensures { TakesRows draft memory.old text.now memory.new result }
{
    let mut draft = draft;
    let mut rest = text;
    while !rest.is_empty() {
        let (line, after) = cut(rest);
        if let Err(why) = draft.row(memory, line) {
            let line = usize::from(draft.rows) + 2;
            draft.discard();
            return Err(Fault { line, why });
        }
        rest = after;
    }
    Ok(draft)
}

/// Loads a text, line by line, under a name: the book goes whole into the place. It costs one walk over the text, and the
/// checks of seal. A text that is refused leaves the place as it was; the rows before the line at fault are in the memory.
pub fn load(text: &[u8], memory: &mut [u16], name: &[u8], place: &mut Loaded) -> Result<(), Fault>
    ensures loads { Loads text.now memory.old name.now place.old memory.new place.new result }
    ensures saved { LoadsSaved text.now (length memory.old) name.now result }
    ensures same { IfOk result (λ _. text.now ≡ text_of place.new) }
    ensures line { IfErr result (λ fault. StandsAt fault.why fault.line) }
{
    let (first, rest) = cut(text);
    let draft = match Draft::begin(first, memory) {
        Ok(draft) => draft,
        Err(why) => return Err(Fault { line: 1, why }),
    };
    let draft = take_rows(draft, memory, rest)?;
    match draft.seal(memory, name, place) {
        Ok(()) => Ok(()),
        Err(Unsealed { why, draft }) => {
            draft.discard();
            Err(Fault { line: 0, why })
        }
    }
}
