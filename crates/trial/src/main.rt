//! Two boards on trial: reads recorded words and claims from standard input, and prints an account of each.
#![tactic(auto)]

mod account;
mod claim;
mod finding;
mod labels;
mod log;
mod past;
mod recording;
mod trying;
mod verdict;

use crate::past::Past;

fn run(rt: &(impl Print + Input + AllocGlobal)) -> anyhow::Result<()> {
    let mut past = Past::new();
    for line in rt.lines(rt.alloc()) {
        let line = line?;
        account::tell(rt, line.as_str(), &mut past)?;
    }
    Ok(())
}

fn main(rt: HostRuntime) -> anyhow::Result<()> {
    run(&rt)
}
