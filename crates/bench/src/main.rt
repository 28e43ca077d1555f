//! How the calls of a tray grow with states and sets. It prints the counts of each call, and with the argument `times`
//! how long each took.
#![tactic(auto)]

mod chain;
mod measure;
mod multiples;

use crate::measure::{BUDGET, Bench, DEPTH, Setting, tell_end};
use std::env;
use std::rt::{Clock, Env};

// Over how many sets the calls are made.
const WIDTHS: [usize; 3] = [4, 6, 8];

// Two slots for tables and two for work, each with a row for each state of the budget over the most sets.
const TWO_SLOTS: usize = DEPTH * BUDGET * ((1 << 8) + 1);

fn run(rt: &(impl Print + Env + Clock + AllocGlobal)) -> anyhow::Result<()> {
    let timed = env::args(rt)?.any(|word| word.as_str() == "times");
    let mut tables = vec![in rt.alloc(); 0u16; TWO_SLOTS]?;
    let mut spare = vec![in rt.alloc(); 0u16; TWO_SLOTS]?;
    for sets in WIDTHS {
        let mut bench = Bench::over(&mut tables, &mut spare, Setting { sets, timed });
        tell_end(rt, bench.measure_multiples(rt))?;
    }
    for sets in WIDTHS {
        let mut bench = Bench::over(&mut tables, &mut spare, Setting { sets, timed });
        tell_end(rt, bench.measure_chain(rt))?;
    }
    Ok(())
}

fn main(rt: HostRuntime) -> anyhow::Result<()> {
    run(&rt)
}
