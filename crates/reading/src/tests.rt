use super::*;
use books::Standard;
use calls::WorkFor;
use grammar::{Build, Flaw, Step};
use tray::{Refusal, Tray};

// Memory for steps that is long enough for each text here.
const STEPS: usize = 208;

// Reads a text onto a tray. It promises nothing here, so that what a test does stays small for the prover.
fn read_onto(tray: &mut Tray, text: &[u8]) -> Result<(usize, usize), Fault> {
    let mut work: WorkFor<9> = WorkFor::new();
    let mut steps = [Step {
        place: 0,
        build: Build::Negate,
    }; STEPS];
    read(&Standard, text, tray, &mut work, &mut steps)
}

// Reads a text onto a new tray with these settings, for which there is room.
fn answer(sets: usize, budget: usize, depth: usize, text: &[u8]) -> Result<(usize, usize), Fault> {
    let mut tables = [0u16; 512];
    let mut spare = [0u16; 256];
    let mut tray = Tray::over(&mut tables, &mut spare);
    tray.open(sets, budget, depth)?;
    read_onto(&mut tray, text)
}

fn refused(why: Refusal, place: usize) -> Fault {
    Fault {
        reason: Reason::Call(why),
        place,
    }
}

fn flawed(flaw: Flaw, place: usize) -> Fault {
    Fault {
        reason: Reason::Text(flaw),
        place,
    }
}

// The counts are those of the last call.
#[test]
fn counts_of_the_last_call(rt: HostRuntime) {
    assert_eq!(rt; answer(1, 3, 1, b"one A"), Ok((3, 3)));
    assert_eq!(rt; answer(2, 9, 2, b"& one A one B"), Ok((9, 5)));
    assert_eq!(rt; answer(3, 3, 1, b"?C sum A B C"), Ok((3, 1)));
}

// One state too few, and one table too few.
#[test]
fn refused_in_the_middle(rt: HostRuntime) {
    assert_eq!(rt;
        answer(1, 2, 1, b"one A"),
        Err(refused(Refusal::TooManyStates, 0))
    );
    assert_eq!(rt;
        answer(2, 8, 2, b" & one A one B"),
        Err(refused(Refusal::TooManyStates, 1))
    );
    assert_eq!(rt;
        answer(2, 9, 1, b"& one A one B"),
        Err(refused(Refusal::Full, 8))
    );
}

// A free position adds two calls, where its letter first stands free; a bound one adds them at its mark.
#[test]
fn places_of_positions(rt: HostRuntime) {
    assert_eq!(rt; answer(2, 4, 1, b"sub x X"), Err(refused(Refusal::Full, 4)));
    assert_eq!(rt;
        answer(2, 2, 2, b"sub x X"),
        Err(refused(Refusal::TooManyStates, 4))
    );
    assert_eq!(rt;
        answer(2, 4, 1, b"~?x sub x X"),
        Err(refused(Refusal::Full, 1))
    );
}

// Nine records are too few for a budget of ten. That is no fault of the text, so it has no place there.
#[test]
fn too_little_memory(rt: HostRuntime) {
    assert_eq!(rt;
        answer(1, 10, 1, b"~ one A"),
        Err(refused(Refusal::NoMemory, 0))
    );
}

#[test]
fn faults_of_the_text(rt: HostRuntime) {
    assert_eq!(rt; answer(1, 3, 1, b""), Err(flawed(Flaw::Unfinished, 0)));
    assert_eq!(rt; answer(3, 3, 1, b"sub A B C"), Err(flawed(Flaw::NotDue, 8)));
    assert_eq!(rt;
        answer(2, 3, 1, b"sum A B C"),
        Err(flawed(Flaw::TooManyVariables, 8))
    );
}

// A tray that was never opened has no sets.
#[test]
fn not_opened(rt: HostRuntime) {
    let mut tray = Tray::over(&mut [], &mut []);
    assert_eq!(rt;
        read_onto(&mut tray, b"one A"),
        Err(flawed(Flaw::TooManyVariables, 4))
    );
    assert_eq!(rt; tray.count(), 0);
}

// The table that was there is saved as the same bytes after a text that was refused for depth, and one refused for states.
#[test]
fn tables_below(rt: HostRuntime) {
    let mut tables = [0u16; 80];
    let mut spare = [0u16; 40];
    let mut tray = Tray::over(&mut tables, &mut spare);
    assert_eq!(rt; tray.open(2, 4, 3), Ok(()));
    assert_eq!(rt; read_onto(&mut tray, b"suc A B"), Ok((4, 4)));
    let mut before = [0u8; 128];
    let mut after = [0u8; 128];
    assert_eq!(rt; tray.save(&mut before).is_ok(), true);
    assert_eq!(rt;
        read_onto(&mut tray, b"& one A & one B emp A"),
        Err(refused(Refusal::Full, 16))
    );
    assert_eq!(rt; tray.count(), 1);
    assert_eq!(rt;
        read_onto(&mut tray, b"& one A one B"),
        Err(refused(Refusal::TooManyStates, 0))
    );
    assert_eq!(rt; tray.count(), 1);
    assert_eq!(rt; tray.save(&mut after).is_ok(), true);
    assert_eq!(rt; before == after, true);
    // and a text on top of it
    assert_eq!(rt; read_onto(&mut tray, b"emp A"), Ok((2, 2)));
    assert_eq!(rt; tray.count(), 2);
}

#[test]
fn numbers_and_layers(rt: HostRuntime) {
    assert_eq!(rt; Reason::Text(Flaw::TooLong).number(), 9);
    assert_eq!(rt; Reason::Text(Flaw::TooLong).layer(), 1);
    assert_eq!(rt; Reason::Text(Flaw::NoToken).layer(), 1);
    assert_eq!(rt; Reason::Text(Flaw::Unfinished).layer(), 2);
    assert_eq!(rt; Reason::Text(Flaw::TooManyVariables).number(), 15);
    assert_eq!(rt; Reason::Text(Flaw::TooManyVariables).layer(), 2);
    assert_eq!(rt; Reason::Text(Flaw::NoRoom).layer(), 3);
    assert_eq!(rt; Reason::Call(Refusal::NoBuffer).layer(), 3);
    assert_eq!(rt; Reason::Call(Refusal::TooManySets).number(), 20);
    assert_eq!(rt; Reason::Call(Refusal::TooManySets).layer(), 3);
}
