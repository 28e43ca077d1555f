//! Tables that come back, and why others do not.
use super::*;
use calls::{Output, Reply, WorkFor};
use loading::{Fault, Loaded, Unloaded};
use tray::{Refusal, Tray};

// What comes of a text with this budget, and the buffer for the text that is saved, in which every byte was 0 before.
fn again(text: &[u8], budget: usize) -> (Result<Reply, Unreturned>, [u8; 51]) {
    let mut place = Loaded::blank();
    let mut tables = [0; 45];
    let mut spare = [0; 90];
    let mut tray = Tray::over(&mut tables, &mut spare);
    let mut work: WorkFor<9> = WorkFor::new();
    let mut output: Output<9, 51> = Output::new();
    let answer = save_again(
        text,
        b"own",
        &mut [0; 2560],
        &mut place,
        &mut tray,
        budget,
        &mut work,
        &mut output,
    );
    (answer, output.text)
}

// Exactly one member, and a subset of another set.
#[test]
fn the_same_bytes(rt: HostRuntime) {
    let (answer, text) = again(b"state accepts n0 n1\n0 0 0 1\n1 1 1 2\n2 0 2 2\n", 9);
    assert_eq!(rt; answer, Ok(Reply::Saved(44)));
    assert!(rt; text == *b"state accepts n0 n1\n0 0 0 1\n1 1 1 2\n2 0 2 2\n\0\0\0\0\0\0\0");
    let (answer, text) = again(b"state accepts n0 n1 n2 n3\n0 1 0 1 0 0\n1 0 1 1 1 1\n", 2);
    assert_eq!(rt; answer, Ok(Reply::Saved(50)));
    assert!(rt; text == *b"state accepts n0 n1 n2 n3\n0 1 0 1 0 0\n1 0 1 1 1 1\n\0");
}

// Two equal states are one in the text that is saved.
#[test]
fn a_smaller_text(rt: HostRuntime) {
    let (answer, text) = again(b"state accepts n0 n1\n0 1 1 1\n1 1 0 1\n", 9);
    assert_eq!(rt; answer, Ok(Reply::Saved(28)));
    assert!(rt;
        text == *b"state accepts n0 n1\n0 1 0 0\n\0\0\0\0\0\0\0\0\0\0\0\0\0\0\0\0\0\0\0\0\0\0\0"
    );
}

#[test]
fn refused(rt: HostRuntime) {
    // place meets more states than the budget, so that there is no top
    let (answer, _) = again(b"state accepts n0 n1\n0 0 0 1\n1 1 1 2\n2 0 2 2\n", 2);
    assert_eq!(rt; answer, Ok(Reply::Refused(Refusal::TooFewTables)));
    // exactly two members, a text of 52 bytes: the buffer is one byte too short
    let (answer, text) = again(
        b"state accepts n0 n1\n0 0 0 1\n1 0 1 2\n2 1 2 3\n3 0 3 3\n",
        9,
    );
    assert_eq!(rt; answer, Ok(Reply::Refused(Refusal::NoBuffer)));
    assert!(rt; text == [0; 51]);
    let (answer, _) = again(b"state accepts n0 n1\n0 1 0 0\n", 0);
    assert_eq!(rt; answer, Err(Unreturned::NotOpened(Refusal::WrongBudget)));
    let fault = Fault {
        line: 3,
        why: Unloaded::WrongLine,
    };
    let (answer, _) = again(b"state accepts n0 n1\n0 0 0 1\n1 1 1 2", 0);
    assert_eq!(rt; answer, Err(Unreturned::NotLoaded(fault)));
}
