//! The table of a claim as a graph, in the form that Graphviz reads.
ghost use Rattle.std.specs.Prelude.{◌≡◌, ◌^◌, ◌≤◌};

use crate::desk::{Desk, STATES};
use crate::letters::Letters;
use calls::{Call, Reply};
use loading::{cut, read_numbers};
use std::{fmt, io};

// A row of a table over four sets, the most that are saved: the state, its mark, and the next states.
const MOST_VALUES: usize = 2 + 16;

// The columns that lead to a state, joined by commas.
#[derive(Clone, Copy)]
struct Columns<'n> {
    nexts: &'n [u16],
    to: u16,
}

impl fmt::Display for Columns<'_> {
    fn fmt<W: fmt::Write>(&self, f: &mut fmt::Formatter<W>) -> fmt::Result {
        let mut before = "";
        for (column, next) in self.nexts.iter().enumerate() {
            if *next == self.to {
                write!(f, "{before}{column}")?;
                before = ",";
            }
        }
        Ok(())
    }
}

// Which bit of a column belongs to which letter.
#[derive(Clone, Copy)]
struct Key<'l>(&'l Letters);

impl fmt::Display for Key<'_> {
    fn fmt<W: fmt::Write>(&self, f: &mut fmt::Formatter<W>) -> fmt::Result {
        let mut before = "";
        for (set, letter) in self.0.iter().enumerate() {
            if let Some(letter) = letter {
                write!(f, "{before}bit {set} is {letter}")?;
                before = ", ";
            }
        }
        Ok(())
    }
}

/// Prints the table on top as a graph.
pub fn tell_graph(
    rt: &impl Print,
    desk: &mut Desk,
    letters: &Letters,
    sets: usize,
) -> io::Result<()> {
    println!(rt; "")?;
    match desk.make(Call::Save) {
        Reply::Saved(bytes) => tell_table(rt, desk.saved(bytes), letters, sets),
        Reply::Refused(why) => println!(rt; "There is no graph: {why}."),
        Reply::Built { .. } | Reply::Dropped | Reply::Judged(_) => Ok(()),
    }
}

// How many columns there are over so many sets, of a table that is saved.
fn columns_over(sets: usize) -> usize
    ensures is { sets ≤ 4 → result ≡ 2 ^ sets }
    ensures few { result ≤ 16 }
{
    match sets {
        0 => 1,
        1 => 2,
        2 => 4,
        3 => 8,
        _ => 16,
    }
}

// The graph of a saved table over so many sets. Behind its line of names each line is a row.
fn tell_table(rt: &impl Print, text: &[u8], letters: &Letters, sets: usize) -> io::Result<()> {
    println!(rt; "digraph claim {{")?;
    println!(rt; "  rankdir = LR;")?;
    println!(rt; "  label = \"{}\";", Key(letters))?;
    println!(rt; "  node [shape = circle];")?;
    println!(rt; "  start [shape = point];")?;
    println!(rt; "  start -> 0;")?;
    let (_names, rows) = cut(text);
    let mut rest = rows;
    for _ in 0..STATES {
        if rest.is_empty() {
            break;
        }
        let (line, after) = cut(rest);
        tell_line(rt, line, columns_over(sets))?;
        rest = after;
    }
    println!(rt; "}}")
}

// The state of a saved row, and the edges that leave it.
fn tell_line(rt: &impl Print, line: &[u8], columns: usize) -> io::Result<()>
    requires { columns ≤ 16 }
{
    let mut values = [0u16; MOST_VALUES];
    if !read_numbers(line, &mut values[..columns + 2]) {
        return Ok(());
    }
    let state = values[0];
    if values[1] == 1 {
        println!(rt; "  {state} [shape = doublecircle];")?;
    }
    tell_edges(rt, state, &values[2..columns + 2])
}

// An edge for each state that follows, at the first column that leads to it.
fn tell_edges(rt: &impl Print, state: u16, nexts: &[u16]) -> io::Result<()> {
    for (column, next) in nexts.iter().enumerate() {
        let to = *next;
        if !nexts[..column].contains(&to) {
            println!(rt;
                "  {state} -> {to} [label = \"{}\"];",
                Columns { nexts, to }
            )?;
        }
    }
    Ok(())
}

#[cfg(test)]
mod tests {
    use super::*;
    use std::alloc::AllocError;

    #[test]
    fn columns(rt: HostRuntime) -> Result<(), AllocError> {
        let nexts = [0, 1, 0, 0];
        for (to, wanted) in [(0, "0,2,3"), (1, "1"), (2, "")] {
            let columns = Columns { nexts: &nexts, to };
            let text = format!(in rt.alloc(); "{columns}")?;
            assert_eq!(rt; text.as_str(), wanted);
        }
        Ok(())
    }
}
