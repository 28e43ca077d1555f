//! The account of the claims on a board, for whoever built it.
ghost use Rattle.books.specs.Standard.{count, automaton, holds};
ghost use Rattle.calls.specs.Buffers.{held};
ghost use Rattle.calls.specs.Lent.{lent_for};
ghost use Rattle.calls.specs.Promise.{Continues};

use crate::claim::{Claim, SETS};
use crate::log::Entry;
use crate::past::Seen;
use crate::recording::Board;
use crate::verdict::{tell_judgement, tell_table};
use books::Standard;
use calls::{Call, Output, Reply, WorkFor, make};
use std::io;
use tray::{Refusal, Tray};

// How many states one call may meet.
const BUDGET: usize = 64;

// How many tables the tray holds at most.
const DEPTH: usize = 8;

const COLUMNS: usize = 1 << SETS;

// A slot has a row for each state of the budget: a number for each column over the sets, and a mark.
const SLOT: usize = BUDGET * (COLUMNS + 1);

const TABLES: usize = DEPTH * SLOT;

const SPARE: usize = 2 * SLOT;

// The text of a table: a line of names, and a line for each state, in which no number has more than two digits.
const NAMES: usize = "state accepts".len() + COLUMNS * " n15".len() + 1;

const LINE: usize = "63 1".len() + COLUMNS * " 63".len() + 1;

const BYTES: usize = NAMES + BUDGET * LINE;

// A tray, and the memory that is lent to its calls.
#[derive(Drop)]
struct Workbench<'m, 's> {
    tray: Tray<'m, 's>,
    work: WorkFor<BUDGET>,
    output: Output<BUDGET, BYTES>,
}

impl<'m, 's> Workbench<'m, 's> {
    fn over(tables: &'m mut [u16], spare: &'s mut [u16]) -> Workbench<'m, 's> {
        Workbench {
            tray: Tray::over(tables, spare),
            work: WorkFor::new(),
            output: Output::new(),
        }
    }

    // Opens the tray, which is empty then.
    fn open(&mut self) -> Result<(), Refusal> {
        self.tray.open(SETS, BUDGET, DEPTH)
    }

    // Makes a call, which is a step of a run.
    fn make(&mut self, call: Call) -> Reply
        ensures { Continues (lent_for BUDGET) count automaton holds call.entry self.old.tray.control self.old.tray.tables.now (held self.old.output) self.new.tray.control self.new.tray.tables.now (held self.new.output) result }
    {
        let Workbench { tray, work, output } = self;
        make(&Standard, tray, work, output, call)
    }
}

/// Builds and judges the claims on a board, and prints an account of each beside the last word that it recorded, and the
/// table of the last claim.
pub fn tell_claims(rt: &impl Print, board: Board, last: Option<Seen>) -> io::Result<()> {
    let mut tables = [0u16; TABLES];
    let mut spare = [0u16; SPARE];
    let mut bench = Workbench::over(&mut tables, &mut spare);
    for claim in board.claims() {
        tell_claim(rt, &mut bench, board, *claim)?;
        tell_last(rt, *claim, last)?;
    }
    tell_saved(rt, &mut bench)
}

// The calls that build a claim, and the verdict on it if all of them were accepted.
fn tell_claim(
    rt: &impl Print,
    bench: &mut Workbench,
    board: Board,
    claim: Claim,
) -> io::Result<()> {
    println!(rt; "{}, a claim: {claim}", board.labels().board)?;
    if tell_calls(rt, bench, claim.calls())? {
        return tell_verdict(rt, bench, board);
    }
    println!(rt; "A call was refused, and so the claim is not judged.")
}

// Makes the calls of a claim on the tray opened anew, prints each with its reply, and answers whether all were accepted.
fn tell_calls(rt: &impl Print, bench: &mut Workbench, calls: &[Call]) -> io::Result<bool> {
    if let Err(why) = bench.open() {
        println!(rt; "  open: refused, check {}: {why}", why.number())?;
        return Ok(false);
    }
    let mut accepted = true;
    for call in calls {
        let call = *call;
        let reply = bench.make(call);
        accepted = accepted && !matches!(reply, Reply::Refused(_));
        println!(rt; "  {}", Entry { call, reply })?;
    }
    Ok(accepted)
}

// The verdict on the claim whose table lies on top, and the shortest words that show it.
fn tell_verdict(rt: &impl Print, bench: &mut Workbench, board: Board) -> io::Result<()> {
    let call = Call::Judge;
    match bench.make(call) {
        Reply::Judged(judgement) => tell_judgement(rt, board, judgement, &bench.output),
        reply => println!(rt; "  {}", Entry { call, reply }),
    }
}

// The table on top, which is that of the last claim.
fn tell_saved(rt: &impl Print, bench: &mut Workbench) -> io::Result<()> {
    let call = Call::Save;
    match bench.make(call) {
        Reply::Saved(bytes) => {
            println!(rt; "The table after these calls:")?;
            tell_table(rt, &bench.output.text[..bytes.min(BYTES)])
        }
        reply => println!(rt; "  {}", Entry { call, reply }),
    }
}

// The board's last recorded word, beside the claim.
fn tell_last(rt: &impl Print, claim: Claim, last: Option<Seen>) -> io::Result<()> {
    let Some(seen) = last else {
        return println!(rt; "No word of this board was recorded before.");
    };
    let columns = seen.columns;
    if claim.meets(&seen.finding) {
        return println!(rt; "The last recorded word, of length {columns}, meets it.");
    }
    println!(rt; "The last recorded word, of length {columns}, fails it too:")?;
    for row in &seen.rows() {
        println!(rt; "{row}")?;
    }
    Ok(())
}

#[cfg(test)]
mod tests {
    use super::*;
    use judging::Verdict;

    // The verdict on a claim, and how many states its table has.
    fn decided(claim: Claim) -> Option<(Verdict, usize)> {
        let mut tables = [0u16; TABLES];
        let mut spare = [0u16; SPARE];
        let mut bench = Workbench::over(&mut tables, &mut spare);
        bench.open().ok()?;
        for call in claim.calls() {
            bench.make(*call);
        }
        match bench.make(Call::Judge) {
            Reply::Judged(judgement) => Some((judgement.verdict, judgement.states)),
            _ => None,
        }
    }

    // The values are those of the claims as relations of numbers, found by trying all words of up to three columns.
    #[test]
    fn claims_on_an_adder(rt: HostRuntime) {
        assert_eq!(rt; Board::Adder.claims().len(), 2);
        assert_eq!(rt; decided(Claim::Adds), Some((Verdict::SomeSets, 3)));
        assert_eq!(rt; decided(Claim::HasSum), Some((Verdict::AllSets, 1)));
    }

    #[test]
    fn claims_on_a_counter(rt: HostRuntime) {
        assert_eq!(rt; Board::Counter.claims().len(), 3);
        assert_eq!(rt; decided(Claim::CountsOn), Some((Verdict::SomeSets, 5)));
        assert_eq!(rt; decided(Claim::HasNext), Some((Verdict::AllSets, 1)));
        assert_eq!(rt; decided(Claim::Sticks), Some((Verdict::NoSets, 1)));
    }
}
