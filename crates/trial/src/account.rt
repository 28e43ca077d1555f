//! The account of a recorded word, for whoever built the board.
use crate::finding::examine;
use crate::past::{Past, Seen};
use crate::recording::{Board, Recording, Unread, read};
use crate::trying::tell_claims;
use std::io;

/// Prints the account of one line: a recording, the claims on a board behind `claim `, or a remark behind `# `, which is
/// repeated as it stands.
pub fn tell(rt: &(impl Print + AllocGlobal), line: &str, past: &mut Past) -> io::Result<()> {
    if let Some(remark) = line.strip_prefix("# ") {
        return println!(rt; "{remark}");
    }
    if let Some(name) = line.strip_prefix("claim ") {
        return tell_claim(rt, name, past);
    }
    match read(rt.alloc(), line) {
        Ok(recording) => tell_recording(rt, &recording, past),
        Err(Unread::NoMemory) => println!(rt; "No recording: {}", Unread::NoMemory),
        Err(why) => println!(rt; "No recording: {why}: {line}"),
    }
}

// The claims on the board of this name.
fn tell_claim(rt: &impl Print, name: &str, past: &Past) -> io::Result<()> {
    match name.parse::<Board>() {
        Ok(board) => tell_claims(rt, board, past.last(board)),
        Err(_) => println!(rt; "No claim: there is no board of this name: {name}"),
    }
}

fn tell_recording(
    rt: &(impl Print + AllocGlobal),
    recording: &Recording,
    past: &mut Past,
) -> io::Result<()> {
    let board = recording.board;
    match examine(rt.alloc(), &recording.word) {
        Ok(finding) => {
            let seen = Seen {
                board,
                finding,
                columns: recording.word.len(),
            };
            past.note(seen);
            tell_seen(rt, &seen)
        }
        Err(why) => println!(rt; "{}: {why}", board.labels().board),
    }
}

// Each set as a number and as a row of bits, and then what was found.
fn tell_seen(rt: &impl Print, seen: &Seen) -> io::Result<()> {
    println!(rt;
        "{}: a word of length {} over 3 sets, position 0 leftmost",
        seen.board.labels().board,
        seen.columns
    )?;
    for row in &seen.rows() {
        println!(rt; "{row}")?;
    }
    println!(rt; "{}", seen.true_row())?;
    tell_finding(rt, seen)
}

// What the standard book says.
fn tell_finding(rt: &impl Print, seen: &Seen) -> io::Result<()> {
    let names = seen.board.labels();
    let finding = seen.finding;
    let columns = seen.columns;
    if finding.right {
        return println!(rt; "The board is right: sum holds of the {}.", names.said);
    }
    println!(rt; "The board is wrong: sum fails of the {}.", names.said)?;
    if finding.room {
        return println!(rt;
            "Within the word's length sum holds of the {}.",
            names.truth
        );
    }
    println!(rt;
        "Within the word's length sum fails of the {} too, which needs position {columns}.",
        names.truth
    )?;
    if finding.whole {
        return println!(rt;
            "With position {columns} there, sum holds of the {}.",
            names.truth
        );
    }
    Ok(())
}
