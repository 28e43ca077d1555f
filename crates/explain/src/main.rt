//! Explains a claim to whoever wrote it: reads settings and a text from standard input, as `decide` does, and prints how
//! the text was read, the calls that build its table, the verdict, and the two shortest words. With the argument `dot` it
//! prints the table as a graph too.
#![tactic(auto)]

mod account;
mod desk;
mod dot;
mod drawing;
mod fault;
mod letters;
mod line;
mod naming;

use crate::account::tell_claim;
use crate::fault::tell_unread;
use deciding::{MOST_ASKED, read_question};
use std::env;
use std::io::Read;
use std::rt::Env;

fn run(rt: &(impl Print + Input + Env + AllocGlobal)) -> anyhow::Result<()> {
    let graph = env::args(rt)?.any(|word| word.as_str() == "dot");
    let mut input = Vec::new(rt.alloc());
    rt.reader().take(MOST_ASKED).read_to_end(&mut input)?;
    match read_question(&input) {
        Ok(question) => tell_claim(rt, question, graph),
        Err(why) => {
            tell_unread(rt, why)?;
            Ok(())
        }
    }
}

fn main(rt: HostRuntime) -> anyhow::Result<()> {
    run(&rt)
}
