//! Why a question or a text is refused.
use crate::line::{Blanks, OneLine};
use deciding::Unread;
use reading::{Fault, Reason};
use std::{fmt, io};

// A reason as a sentence.
#[derive(Clone, Copy)]
struct Sentence(Reason);

impl fmt::Display for Sentence {
    fn fmt<W: fmt::Write>(&self, f: &mut fmt::Formatter<W>) -> fmt::Result {
        match self.0 {
            Reason::Text(flaw) => write!(f, "{flaw}"),
            Reason::Call(refusal) => write!(f, "{refusal}"),
        }
    }
}

/// Prints why a question is not read.
pub fn tell_unread(rt: &impl Print, why: Unread) -> io::Result<()> {
    let sentence = match why {
        Unread::Heading => "the first line is not `sets budget depth`",
        Unread::Values => { "the second line is not three numbers up to 65,535, one space apart" }
    };
    println!(rt;
        "refused ({}, layer {}): {sentence}",
        why.number(),
        why.layer()
    )
}

/// Prints why something is refused, whatever the text is.
pub fn tell_reason(rt: &impl Print, reason: Reason) -> io::Result<()> {
    println!(rt;
        "refused ({}, layer {}): {}",
        reason.number(),
        reason.layer(),
        Sentence(reason)
    )
}

/// Prints the text with the place of its fault marked, and why it is refused. A text that is too long, or that there is
/// no memory for, has no such place.
pub fn tell_fault(rt: &impl Print, text: &[u8], fault: Fault) -> io::Result<()> {
    let Fault { reason, place } = fault;
    if !matches!(reason.number(), 4 | 9) {
        println!(rt; "{}", OneLine(text))?;
        println!(rt; "{}^", Blanks(place))?;
    }
    tell_reason(rt, reason)
}
