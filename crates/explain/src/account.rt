//! The account of a claim.
use crate::desk::{Desk, NUMBERS, call_of};
use crate::dot::tell_graph;
use crate::drawing::tell_word;
use crate::fault::{tell_fault, tell_reason};
use crate::letters::{Letters, Listed, letters_of};
use crate::line::{Blanks, OneLine};
use crate::naming::Named;
use books::Standard;
use calls::{Call, Reply};
use deciding::Question;
use grammar::{Build, Step, plan_text};
use judging::{Judgement, Verdict};
use reading::{Fault, Reason};
use std::io;

// Steps for the longest text, of 1,024 bytes.
const STEPS: usize = 3_088;

// The most signs that a call takes, as in `place sum on 0 1 2`.
const CALL: usize = 18;

/// Prints the account of a claim, with its table as a graph if that is asked for.
pub fn tell_claim(
    rt: &(impl Print + AllocGlobal),
    question: Question,
    graph: bool,
) -> anyhow::Result<()> {
    let mut numbers = [0u16; NUMBERS];
    match Desk::opened(&mut numbers, question.settings) {
        Ok(mut desk) => tell_text(rt, question, &mut desk, graph),
        Err(why) => {
            tell_reason(rt, Reason::Call(why))?;
            Ok(())
        }
    }
}

// The account of a text, on a tray that is open for it.
fn tell_text(
    rt: &(impl Print + AllocGlobal),
    question: Question,
    desk: &mut Desk,
    graph: bool,
) -> anyhow::Result<()> {
    let text = question.text;
    let mut steps = [Step {
        place: 0,
        build: Build::Negate,
    }; STEPS];
    let count = match plan_text(&Standard, text, question.settings.sets, &mut steps) {
        Ok(count) => count,
        Err(flawed) => {
            tell_fault(rt, text, Fault::from(flawed))?;
            return Ok(());
        }
    };
    let letters = letters_of(text);
    tell_reading(rt, text, &letters)?;
    if let Some(fault) = tell_steps(rt, desk, &steps[..count.min(STEPS)])? {
        println!(rt; "")?;
        tell_fault(rt, text, fault)?;
        return Ok(());
    }
    tell_judged(rt, desk, &letters)?;
    if graph {
        tell_graph(rt, desk, &letters, question.settings.sets)?;
    }
    Ok(())
}

// The text as it was read, and its letters.
fn tell_reading(rt: &impl Print, text: &[u8], letters: &Letters) -> io::Result<()> {
    println!(rt; "text")?;
    println!(rt; "  {}", OneLine(text.trim_ascii_end()))?;
    println!(rt; "")?;
    println!(rt; "letters")?;
    for (set, letter) in letters.iter().enumerate() {
        if let Some(letter) = *letter {
            println!(rt; "  {}", Listed { set, letter })?;
        }
    }
    Ok(())
}

// How many digits a place of a text takes.
fn digits(place: u16) -> usize {
    match place {
        0..=9 => 1,
        10..=99 => 2,
        100..=999 => 3,
        1000..=9999 => 4,
        10000.. => 5,
    }
}

// The calls in their order, each with its answer, up to the first that is refused; the fault of that one.
fn tell_steps(
    rt: &(impl Print + AllocGlobal),
    desk: &mut Desk,
    steps: &[Step],
) -> anyhow::Result<Option<Fault>> {
    let width = steps
        .iter()
        .map(|step| digits(step.place))
        .max()
        .unwrap_or(1);
    println!(rt; "")?;
    println!(rt; "calls")?;
    for step in steps {
        if let Some(fault) = tell_step(rt, desk, step, width)? {
            return Ok(Some(fault));
        }
    }
    Ok(None)
}

// One call with its answer, and its fault if it is refused.
fn tell_step(
    rt: &(impl Print + AllocGlobal),
    desk: &mut Desk,
    step: &Step,
    width: usize,
) -> anyhow::Result<Option<Fault>> {
    let place = step.place;
    let call = call_of(&step.build);
    let named = format!(in rt.alloc(); "{}", Named(call))?;
    let before = Blanks(width.saturating_sub(digits(place)));
    let behind = Blanks(CALL.saturating_sub(named.len()));
    print!(rt; "  at {before}{place}  {named}{behind}  ")?;
    match desk.make(call) {
        Reply::Built { met, kept } => {
            println!(rt; "met {met:>2}  kept {kept:>2}")?;
            Ok(None)
        }
        Reply::Refused(why) => {
            println!(rt; "refused")?;
            Ok(Some(Fault::of_call(why, place)))
        }
        Reply::Dropped | Reply::Saved(_) | Reply::Judged(_) => {
            println!(rt; "done")?;
            Ok(None)
        }
    }
}

// The verdict on the table on top, and its two words.
fn tell_judged(
    rt: &(impl Print + AllocGlobal),
    desk: &mut Desk,
    letters: &Letters,
) -> anyhow::Result<()> {
    println!(rt; "")?;
    match desk.make(Call::Judge) {
        Reply::Judged(judgement) => {
            tell_verdict(rt, judgement)?;
            println!(rt; "")?;
            tell_word(rt, "witness", letters, desk.witness(judgement.witness))?;
            println!(rt; "")?;
            let word = desk.counterexample(judgement.counterexample);
            tell_word(rt, "counterexample", letters, word)
        }
        Reply::Refused(why) => {
            tell_reason(rt, Reason::Call(why))?;
            Ok(())
        }
        Reply::Built { .. } | Reply::Dropped | Reply::Saved(_) => Ok(()),
    }
}

fn tell_verdict(rt: &impl Print, judgement: Judgement) -> io::Result<()> {
    let meet = match judgement.verdict {
        Verdict::AllSets => "All finite sets meet the claim.",
        Verdict::SomeSets => "Some finite sets meet the claim and some do not.",
        Verdict::NoSets => "No finite sets meet the claim.",
    };
    let states = judgement.states;
    let noun = if states == 1 { "state" } else { "states" };
    println!(rt; "{meet}")?;
    println!(rt; "Its table has {states} {noun}.")
}
