//! What a tray says about a claim: the verdict, the words that show it, and the table.
use crate::labels::Row;
use crate::recording::Board;
use calls::Output;
use judging::{Judgement, Verdict};
use std::io;
use words::number;

/// The verdict on a claim, and the shortest words that meet it and that fail it, which lie in the output.
pub fn tell_judgement<const COLUMNS: usize, const BYTES: usize>(
    rt: &impl Print,
    board: Board,
    judgement: Judgement,
    output: &Output<COLUMNS, BYTES>,
) -> io::Result<()> {
    let Judgement {
        verdict,
        states,
        witness,
        counterexample,
    } = judgement;
    tell_sets_that_meet(rt, verdict, states)?;
    tell_shortest(rt, board, "meets", word_in(&output.witness, witness))?;
    tell_shortest(
        rt,
        board,
        "fails",
        word_in(&output.counterexample, counterexample),
    )
}

fn tell_sets_that_meet(rt: &impl Print, verdict: Verdict, states: usize) -> io::Result<()> {
    let which = match verdict {
        Verdict::NoSets => "No sets meet the claim, whatever the width",
        Verdict::SomeSets => "Some sets meet the claim and some do not",
        Verdict::AllSets => "All sets meet the claim, whatever the width",
    };
    let states_are = if states == 1 { "state" } else { "states" };
    println!(rt; "{which}: its table has {states} {states_are}.")
}

// The word at the front of a buffer, if there is one.
fn word_in(buffer: &[u8], columns: Option<usize>) -> Option<&[u8]> {
    buffer.get(..columns?)
}

// The shortest word that meets or fails a claim, drawn like a recording.
fn tell_shortest(rt: &impl Print, board: Board, does: &str, word: Option<&[u8]>) -> io::Result<()> {
    let Some(word) = word else {
        return println!(rt; "No word {does} it.");
    };
    let columns = word.len();
    if columns == 0 {
        return println!(rt; "The shortest word that {does} it is empty: each number is 0.");
    }
    println!(rt; "The shortest word that {does} it has length {columns}, position 0 leftmost:")?;
    let names = board.labels();
    for (set, name) in [(0, names.first), (1, names.second), (2, names.said)] {
        match number(word, set) {
            Some(set) => println!(rt; "{}", Row { name, set, columns })?,
            None => println!(rt; "  {name}: too long to be drawn")?,
        }
    }
    Ok(())
}

/// The text of a table, line by line.
pub fn tell_table(rt: &impl Print, text: &[u8]) -> io::Result<()> {
    for line in text.trim_ascii_end().split(|byte| *byte == b'\n') {
        println!(rt; "  {}", line.escape_ascii())?;
    }
    Ok(())
}
