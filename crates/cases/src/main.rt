//! Decides many claims. A line of standard input has one of two forms:
//!
//! - `SETS TEXT`, a number of sets, a blank and a text, which is decided with a budget of 64 and a depth of 8;
//! - `input BYTES`, all that `decide` is to read. `%` and two hexadecimal digits stand for the byte of this number, as they
//!   have to for `%` itself, for a line feed, and for each byte that is no printed ASCII.
//!
//! For each line it prints the values that `decide` prints: verdict, states, witness and counterexample, or the number, the
//! layer and the place of the fault.
#![tactic(auto)]

ghost use Rattle.std.specs.Prelude.{◌≡◌, ◌++◌, codes, IfOk};
ghost use Rattle.percent_encoding.specs.Percent.{percent_decode as decoded};

use books::Standard;
use deciding::decide;
use loading::cut;
use percent_encoding::percent_decode;
use std::alloc::{AllocError, Global};
use std::io;
use std::io::Write;

// The settings behind the number of sets: the budget and the depth.
const SETTINGS: &[u8] = b" 64 8\n";

// The whole input of a claim.
fn question(alloc: Global, sets: &str, text: &str) -> Result<Vec<u8>, AllocError>
    ensures { IfOk result (λ bytes. bytes.items ≡ codes "sets budget depth\n" ++ (sets.now ++ (codes " 64 8\n" ++ text.now))) }
{
    let mut bytes = Vec::new(alloc);
    bytes.extend_from_slice(b"sets budget depth\n")?;
    bytes.extend_from_slice(sets.as_bytes())?;
    bytes.extend_from_slice(SETTINGS)?;
    bytes.extend_from_slice(text.as_bytes())?;
    Ok(bytes)
}

// The bytes that are written with escapes.
fn unescaped(alloc: Global, escaped: &str) -> Result<Vec<u8>, AllocError>
    ensures { IfOk result (λ bytes. bytes.items ≡ decoded escaped.now) }
{
    let mut bytes = Vec::new(alloc);
    percent_decode(escaped.as_bytes()).append_to(&mut bytes)?;
    Ok(bytes)
}

// The whole input that a line is about.
fn input_of(alloc: Global, line: &str) -> Result<Vec<u8>, AllocError> {
    match line.split_once(' ') {
        Some(("input", escaped)) => unescaped(alloc, escaped),
        Some((sets, text)) => question(alloc, sets, text),
        None => question(alloc, line, ""),
    }
}

fn run(rt: &(impl Print + Input + AllocGlobal)) -> anyhow::Result<()> {
    for line in rt.lines(rt.alloc()) {
        let line = line?;
        let input = input_of(rt.alloc(), line.as_str())?;
        let lines = decide(&Standard, &input);
        let (_, values) = cut(lines.as_slice());
        io::writer(rt).write_all(values)?;
    }
    Ok(())
}

fn main(rt: HostRuntime) -> anyhow::Result<()> {
    run(&rt)
}
