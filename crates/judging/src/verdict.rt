//! The verdict on a table, and the earliest words that show it.
ghost use Rattle.std.specs.Prelude.{◌≡◌, ◌≤◌, length};
ghost use Rattle.words.specs.Described.{described};
ghost use Rattle.judging.specs.Lowest.{LowestState, WrittenFor, verdict_by};
ghost use Rattle.judging.specs.Judged.{Judges};

use crate::walk::{word_length, write_word};
use words::{Rows, Table};

/// Whether no sets meet the claim, some do, or all do.
#[derive(Clone, Copy, PartialEq, Eq, Debug)]
pub enum Verdict {
    NoSets,
    SomeSets,
    AllSets,
}

/// The verdict, the number of states of the table, and the lengths of the earliest word that meets the claim and of
/// the earliest that does not, where there are such words.
#[derive(Clone, Copy, PartialEq, Eq, Debug)]
pub struct Judgement {
    pub verdict: Verdict,
    pub states: usize,
    pub witness: Option<usize>,
    pub counterexample: Option<usize>,
}

// The lowest state that accepts, or the lowest that does not.
fn lowest_state(rows: &Rows, accepting: bool) -> Option<u16>
    ensures { LowestState (described rows.now) accepting result }
{
    (0..rows.states).find(|state| rows.accepts(*state) == accepting)
}

// Writes the earliest word that the table accepts, or the earliest that it does not, and answers its length.
fn write_earliest(table: &Table, accepting: bool, buffer: &mut [u8]) -> Option<usize>
    requires room { table.now.rows.states ≤ length buffer.old }
    ensures { WrittenFor table.now.rows accepting buffer.old buffer.new result }
{
    let rows = &table.rows;
    let state = lowest_state(rows, accepting)?;
    let count = word_length(rows, state);
    write_word(rows, state, count, buffer);
    Some(count)
}

// The verdict by which words there are.
fn verdict_by(witness: Option<usize>, counterexample: Option<usize>) -> Verdict
    ensures { result ≡ verdict_by witness counterexample }
{
    match (witness, counterexample) {
        (None, _) => Verdict::NoSets,
        (Some(_), None) => Verdict::AllSets,
        (Some(_), Some(_)) => Verdict::SomeSets,
    }
}

/// Judges a table, and writes the earliest word that meets the claim and the earliest that does not, each at the front
/// of its buffer; a word that there is not leaves its buffer as it was. It answers none, and writes nothing, where a
/// buffer has fewer bytes than the table has states. Each word costs two walks of at most states² × 2^places looks.
pub fn judge_table(
    table: &Table,
    witness: &mut [u8],
    counterexample: &mut [u8],
) -> Option<Judgement>
    ensures { Judges table.now.rows witness.old counterexample.old witness.new counterexample.new result }
{
    let states = usize::from(table.rows.states);
    if witness.len() < states || counterexample.len() < states {
        return None;
    }
    let met = write_earliest(table, true, witness);
    let missed = write_earliest(table, false, counterexample);
    Some(Judgement {
        verdict: verdict_by(met, missed),
        states,
        witness: met,
        counterexample: missed,
    })
}
