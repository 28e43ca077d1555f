//! Decides a claim: reads settings and a text from standard input, and prints the verdict or the fault.
#![tactic(auto)]

use books::Standard;
use deciding::{MOST_ASKED, decide};
use std::io;
use std::io::{Read, Write};

// No more of the input is read than decides the answer.
fn run(rt: &(impl Print + Input + AllocGlobal)) -> anyhow::Result<()> {
    let mut input = Vec::new(rt.alloc());
    rt.reader().take(MOST_ASKED).read_to_end(&mut input)?;
    io::writer(rt).write_all(decide(&Standard, &input).as_slice())?;
    Ok(())
}

fn main(rt: HostRuntime) -> anyhow::Result<()> {
    run(&rt)
}
