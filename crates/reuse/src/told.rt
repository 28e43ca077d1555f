//! What is printed of a text that is not loaded, of a call, and of a verdict.
use books::{Predicate, Standard};
use calls::{Call, Output, Reply};
use judging::{Judgement, Verdict};
use loading::Fault;
use std::{fmt, io};
use words::in_set;

/// Why a text is not loaded, with the number of the line if it is one line's fault.
#[derive(Clone, Copy)]
pub struct Reason(pub Fault);

impl fmt::Display for Reason {
    fn fmt<W: fmt::Write>(&self, f: &mut fmt::Formatter<W>) -> fmt::Result {
        let Fault { line, why } = self.0;
        if line > 0 {
            write!(f, "line {line}, ")?;
        }
        write!(f, "check {}: {why}", self.0.number())
    }
}

/// A call and the reply to it.
#[derive(Clone, Copy)]
pub struct Entry<'l> {
    pub call: Call<'l>,
    pub reply: Reply,
}

impl fmt::Display for Entry<'_> {
    fn fmt<W: fmt::Write>(&self, f: &mut fmt::Formatter<W>) -> fmt::Result {
        write_call(f, self.call)?;
        match self.reply {
            Reply::Built { met, kept } => write!(f, ": {met} met, {kept} kept"),
            Reply::Refused(why) => write!(f, ": refused, check {}: {why}", why.number()),
            Reply::Dropped | Reply::Saved(_) | Reply::Judged(_) => f.write_str(": done"),
        }
    }
}

fn write_call<W: fmt::Write>(f: &mut fmt::Formatter<W>, call: Call) -> fmt::Result {
    f.write_str(call.name())?;
    match call {
        Call::Place(predicate, listed) => write_placed(f, predicate, listed),
        Call::Single(set) | Call::Hide(set) => write!(f, " {set}"),
        _ => Ok(()),
    }
}

// A predicate of the bound book and the sets that it is placed on. No other than these two is placed.
fn write_placed<W: fmt::Write>(
    f: &mut fmt::Formatter<W>,
    predicate: Predicate,
    listed: &[u8],
) -> fmt::Result {
    let name = match predicate {
        Standard::SUM => "sum",
        _ => "tri",
    };
    write!(f, " {name}")?;
    for (place, set) in listed.iter().enumerate() {
        let before = if place == 0 { " on " } else { "," };
        write!(f, "{before}{set}")?;
    }
    Ok(())
}

// One set of a word as a row of bits, position 0 first.
#[derive(Clone, Copy)]
struct Bits<'w> {
    word: &'w [u8],
    set: u8,
}

impl fmt::Display for Bits<'_> {
    fn fmt<W: fmt::Write>(&self, f: &mut fmt::Formatter<W>) -> fmt::Result {
        for column in self.word {
            f.write_char(if in_set(*column, self.set) { '1' } else { '0' })?;
        }
        Ok(())
    }
}

/// The verdict on a claim over so many sets, and the shortest words that meet it and that fail it, which lie in the output.
pub fn tell_judgement<const COLUMNS: usize, const BYTES: usize>(
    rt: &impl Print,
    sets: u8,
    judgement: Judgement,
    output: &Output<COLUMNS, BYTES>,
) -> io::Result<()> {
    let which = match judgement.verdict {
        Verdict::NoSets => "No sets meet the claim, whatever the width.",
        Verdict::SomeSets => "Some sets meet the claim and some do not.",
        Verdict::AllSets => "All sets meet the claim, whatever the width.",
    };
    println!(rt; "{which}")?;
    println!(rt; "States of its table: {}", judgement.states)?;
    let meets = word_in(&output.witness, judgement.witness);
    tell_shortest(rt, sets, "meets", meets)?;
    let fails = word_in(&output.counterexample, judgement.counterexample);
    tell_shortest(rt, sets, "fails", fails)
}

// The word at the front of a buffer, if there is one.
fn word_in(buffer: &[u8], columns: Option<usize>) -> Option<&[u8]> {
    buffer.get(..columns?)
}

fn tell_shortest(rt: &impl Print, sets: u8, does: &str, word: Option<&[u8]>) -> io::Result<()> {
    let Some(word) = word else {
        return println!(rt; "No word {does} it.");
    };
    let columns = word.len();
    if columns == 0 {
        return println!(rt; "The shortest word that {does} it is empty: no set has a member.");
    }
    println!(rt; "The shortest word that {does} it has length {columns}, position 0 leftmost:")?;
    for set in 0..sets {
        println!(rt; "  set {set}  {}", Bits { word, set })?;
    }
    Ok(())
}
