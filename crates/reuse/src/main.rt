//! A saved table in use: reads its text from standard input, loads it as the predicate `tri`, decides two claims that use
//! it beside the standard book, and saves it again.
#![tactic(auto)]

mod again;
mod told;
mod using;

use crate::again::tell_return;
use crate::told::Reason;
use crate::using::{NAME, tell_uses};
use loading::{Fault, Loaded, MOST_CELLS, load};
use std::io;
use std::io::Read;

// Loads a text as `tri`.
fn load_table(text: &[u8], place: &mut Loaded) -> Result<(), Fault> {
    let mut memory = [0u16; MOST_CELLS];
    load(text, &mut memory, NAME, place)
}

// What the table of a text is good for, or why it is not loaded.
fn tell_table(rt: &impl Print, text: &[u8]) -> io::Result<()> {
    let mut place = Loaded::blank();
    match load_table(text, &mut place) {
        Ok(()) => {
            tell_uses(rt, &place)?;
            tell_return(rt, text, &mut place)
        }
        Err(fault) => println!(rt; "The table is not loaded: {}", Reason(fault)),
    }
}

fn run(rt: &(impl Print + Input + AllocGlobal)) -> anyhow::Result<()> {
    let mut text = Vec::new(rt.alloc());
    rt.reader().read_to_end(&mut text)?;
    tell_table(rt, &text)?;
    Ok(())
}

fn main(rt: HostRuntime) -> anyhow::Result<()> {
    run(&rt)
}

#[cfg(test)]
mod tests {
    use super::*;
    use std::alloc::{AllocError, Global};

    // Whether a text is refused for this reason.
    fn refused(alloc: Global, text: &[u8], reason: &str) -> Result<bool, AllocError> {
        let mut place = Loaded::blank();
        match load_table(text, &mut place) {
            Ok(()) => Ok(false),
            Err(fault) => Ok(format!(in alloc; "{}", Reason(fault))?.as_str() == reason),
        }
    }

    // Two spaces in line 3; and a table whose only state leads out, which no one line says.
    #[test]
    fn a_faulty_text(rt: HostRuntime) -> Result<(), AllocError> {
        let alloc = rt.alloc();
        let text = b"state accepts n0 n1\n0 1 0 1\n1  0 1 1\n";
        let reason = "line 3, check 17: a line or a value in it is malformed";
        assert!(rt; refused(alloc, text, reason)?);
        let text = b"state accepts n0 n1\n0 1 0 1\n";
        let reason = "check 18: a next state is not below the number of rows";
        assert!(rt; refused(alloc, text, reason)?);
        Ok(())
    }

    #[test]
    fn an_empty_text(rt: HostRuntime) -> Result<(), AllocError> {
        let reason = "line 1, check 16: the first line is not a line of names";
        assert!(rt; refused(rt.alloc(), b"", reason)?);
        Ok(())
    }
}
