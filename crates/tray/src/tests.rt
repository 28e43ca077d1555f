//! Worked values, and refusals in their order.
use super::*;
use books::Standard;
use hiding::StateSet;
use judging::{Judgement, Verdict};

// What a judge answers, and its two buffers, which were filled with 9 before.
fn judged(tray: &Tray) -> (Result<Judgement, Refusal>, [u8; 9], [u8; 9]) {
    let mut witness = [9; 9];
    let mut counterexample = [9; 9];
    let judgement = tray.judge(&mut witness, &mut counterexample);
    (judgement, witness, counterexample)
}

// The judgement that some sets meet the claim, with so many states and words of these lengths.
fn some(states: usize, witness: usize, counterexample: usize) -> Judgement {
    Judgement {
        verdict: Verdict::SomeSets,
        states,
        witness: Some(witness),
        counterexample: Some(counterexample),
    }
}

fn all(states: usize, witness: usize) -> Judgement {
    Judgement {
        verdict: Verdict::AllSets,
        states,
        witness: Some(witness),
        counterexample: None,
    }
}

fn none(states: usize, counterexample: usize) -> Judgement {
    Judgement {
        verdict: Verdict::NoSets,
        states,
        witness: None,
        counterexample: Some(counterexample),
    }
}

// The calls, with enough records and links. They promise nothing here, so that what a test does stays small for the
// prover.
fn opened(tray: &mut Tray, sets: usize, budget: usize, depth: usize) -> Result<(), Refusal> {
    tray.open(sets, budget, depth)
}

fn placed(tray: &mut Tray, predicate: u8, listed: &[u8]) -> Result<(usize, usize), Refusal> {
    tray.place(&Standard, predicate, listed, &mut [0; 9], &mut [0; 72])
}

fn singled(tray: &mut Tray, set: u8) -> Result<(usize, usize), Refusal> {
    tray.single(set)
}

fn negated(tray: &mut Tray) -> Result<(usize, usize), Refusal> {
    tray.negate()
}

fn both(tray: &mut Tray) -> Result<(usize, usize), Refusal> {
    tray.both(&mut [(0, 0); 9], &mut [0; 72])
}

fn either(tray: &mut Tray) -> Result<(usize, usize), Refusal> {
    tray.either(&mut [(0, 0); 9], &mut [0; 72])
}

fn hidden(tray: &mut Tray, set: u8) -> Result<(usize, usize), Refusal> {
    tray.hide(set, &mut [StateSet::empty(); 9], &mut [0; 72])
}

fn dropped(tray: &mut Tray) -> Result<(), Refusal> {
    tray.drop()
}

// What a save answers, and its buffer, which was filled with 9 before.
fn saved(tray: &Tray) -> (Result<usize, Refusal>, [u8; 45]) {
    let mut text = [9; 45];
    let answer = tray.save(&mut text);
    (answer, text)
}

#[test]
fn sub_and_its_negation(rt: HostRuntime) {
    let mut tables = [0; 180];
    let mut spare = [0; 90];
    let mut tray = Tray::over(&mut tables, &mut spare);
    assert_eq!(rt; opened(&mut tray, 2, 9, 4), Ok(()));
    assert_eq!(rt; placed(&mut tray, Standard::SUB, &[0, 1]), Ok((2, 2)));
    let (answer, witness, counterexample) = judged(&tray);
    assert_eq!(rt; answer, Ok(some(2, 0, 1)));
    assert!(rt; witness == [9; 9]);
    assert!(rt; counterexample == [1, 9, 9, 9, 9, 9, 9, 9, 9]);
    assert_eq!(rt; negated(&mut tray), Ok((2, 2)));
    let (answer, witness, counterexample) = judged(&tray);
    assert_eq!(rt; answer, Ok(some(2, 1, 0)));
    assert!(rt; witness == [1, 9, 9, 9, 9, 9, 9, 9, 9]);
    assert!(rt; counterexample == [9; 9]);
}

// Sub of two sets or not sub of them: all sets meet it. Sub and not sub: none.
#[test]
fn all_and_none(rt: HostRuntime) {
    let mut tables = [0; 180];
    let mut spare = [0; 90];
    let mut tray = Tray::over(&mut tables, &mut spare);
    assert_eq!(rt; opened(&mut tray, 2, 9, 4), Ok(()));
    assert_eq!(rt; placed(&mut tray, Standard::SUB, &[0, 1]), Ok((2, 2)));
    assert_eq!(rt; placed(&mut tray, Standard::SUB, &[0, 1]), Ok((2, 2)));
    assert_eq!(rt; negated(&mut tray), Ok((2, 2)));
    assert_eq!(rt; either(&mut tray), Ok((2, 1)));
    let (answer, _, counterexample) = judged(&tray);
    assert_eq!(rt; answer, Ok(all(1, 0)));
    assert!(rt; counterexample == [9; 9]);
    assert_eq!(rt; negated(&mut tray), Ok((1, 1)));
    let (answer, witness, _) = judged(&tray);
    assert_eq!(rt; answer, Ok(none(1, 0)));
    assert!(rt; witness == [9; 9]);
}

// Two singletons: nine pairs of states are met, and five residuals are kept. Dropping the top of three tables leaves
// the two below as they were.
#[test]
fn both_of_two_singletons(rt: HostRuntime) {
    let mut tables = [0; 180];
    let mut spare = [0; 90];
    let mut tray = Tray::over(&mut tables, &mut spare);
    assert_eq!(rt; opened(&mut tray, 2, 9, 4), Ok(()));
    assert_eq!(rt; placed(&mut tray, Standard::ONE, &[0]), Ok((3, 3)));
    assert_eq!(rt; singled(&mut tray, 1), Ok((3, 3)));
    assert_eq!(rt; placed(&mut tray, Standard::SUC, &[1, 0]), Ok((4, 4)));
    assert_eq!(rt; dropped(&mut tray), Ok(()));
    assert_eq!(rt; both(&mut tray), Ok((9, 5)));
    let (answer, witness, counterexample) = judged(&tray);
    assert_eq!(rt; answer, Ok(some(5, 1, 0)));
    assert!(rt; witness == [3, 9, 9, 9, 9, 9, 9, 9, 9]);
    assert!(rt; counterexample == [9; 9]);
}

// {p} and {p + 1}: an arrow in the place of "and" would let the empty word in.
#[test]
fn successor(rt: HostRuntime) {
    let mut tables = [0; 180];
    let mut spare = [0; 90];
    let mut tray = Tray::over(&mut tables, &mut spare);
    assert_eq!(rt; opened(&mut tray, 2, 9, 4), Ok(()));
    assert_eq!(rt; placed(&mut tray, Standard::SUC, &[0, 1]), Ok((4, 4)));
    let (answer, witness, counterexample) = judged(&tray);
    assert_eq!(rt; answer, Ok(some(4, 2, 0)));
    assert!(rt; witness == [1, 2, 9, 9, 9, 9, 9, 9, 9]);
    assert!(rt; counterexample == [9; 9]);
}

// Every two numbers have a sum, which may need one position more than they have.
#[test]
fn sum_with_the_third_hidden(rt: HostRuntime) {
    let mut tables = [0; 324];
    let mut spare = [0; 162];
    let mut tray = Tray::over(&mut tables, &mut spare);
    assert_eq!(rt; opened(&mut tray, 3, 9, 4), Ok(()));
    assert_eq!(rt; placed(&mut tray, Standard::SUM, &[0, 1, 2]), Ok((3, 3)));
    let (answer, witness, counterexample) = judged(&tray);
    assert_eq!(rt; answer, Ok(some(3, 0, 1)));
    assert!(rt; witness == [9; 9]);
    assert!(rt; counterexample == [1, 9, 9, 9, 9, 9, 9, 9, 9]);
    assert_eq!(rt; hidden(&mut tray, 2), Ok((3, 1)));
    let (answer, _, _) = judged(&tray);
    assert_eq!(rt; answer, Ok(all(1, 0)));
}

// Exactly one member takes three states: a budget of 2 is too small, and one of 3 is enough. A refused call leaves the
// tray as it was.
#[test]
fn budget(rt: HostRuntime) {
    let mut tables = [0; 180];
    let mut spare = [0; 90];
    let mut tray = Tray::over(&mut tables, &mut spare);
    assert_eq!(rt; opened(&mut tray, 1, 2, 1), Ok(()));
    assert_eq!(rt;
        placed(&mut tray, Standard::ONE, &[0]),
        Err(Refusal::TooManyStates)
    );
    assert_eq!(rt; singled(&mut tray, 0), Err(Refusal::TooManyStates));
    assert_eq!(rt; dropped(&mut tray), Err(Refusal::TooFewTables));
    assert_eq!(rt; opened(&mut tray, 1, 3, 1), Ok(()));
    assert_eq!(rt; placed(&mut tray, Standard::ONE, &[0]), Ok((3, 3)));
    let (answer, witness, counterexample) = judged(&tray);
    assert_eq!(rt; answer, Ok(some(3, 1, 0)));
    assert!(rt; witness == [1, 9, 9, 9, 9, 9, 9, 9, 9]);
    assert!(rt; counterexample == [9; 9]);
}

// The text of a table of three states has 44 bytes: the byte behind it stays, and a buffer of 43 is too short. Saving
// changes no table.
#[test]
fn save(rt: HostRuntime) {
    let mut tables = [0; 54];
    let mut spare = [0; 54];
    let mut tray = Tray::over(&mut tables, &mut spare);
    assert_eq!(rt; opened(&mut tray, 1, 9, 2), Ok(()));
    let (answer, _) = saved(&tray);
    assert_eq!(rt; answer, Err(Refusal::TooFewTables));
    assert_eq!(rt; placed(&mut tray, Standard::EMP, &[0]), Ok((2, 2)));
    assert_eq!(rt; singled(&mut tray, 0), Ok((3, 3)));
    let (answer, text) = saved(&tray);
    assert_eq!(rt; answer, Ok(44));
    assert!(rt; text == *b"state accepts n0 n1\n0 0 0 1\n1 1 1 2\n2 0 2 2\n\t");
    let mut short = [9; 43];
    assert_eq!(rt; tray.save(&mut short), Err(Refusal::NoBuffer));
    assert!(rt; short == [9; 43]);
    assert_eq!(rt; both(&mut tray), Ok((3, 1)));
}

// A table over five sets is not saved, and that is said before anything else.
#[test]
fn save_over_five_sets(rt: HostRuntime) {
    let mut tables = [0; 297];
    let mut spare = [0; 594];
    let mut tray = Tray::over(&mut tables, &mut spare);
    assert_eq!(rt; opened(&mut tray, 5, 9, 1), Ok(()));
    let (answer, _) = saved(&tray);
    assert_eq!(rt; answer, Err(Refusal::TooManySets));
    assert_eq!(rt; singled(&mut tray, 4), Ok((3, 3)));
    let (answer, text) = saved(&tray);
    assert_eq!(rt; answer, Err(Refusal::TooManySets));
    assert!(rt; text == [9; 45]);
}

#[test]
fn open_is_refused(rt: HostRuntime) {
    // One memory for one table of one set and three states, and two slots beside it: 3 * 3 * 3 numbers.
    let mut memory = [0; 27];
    let mut tray = Tray::within(&mut memory, 1, 3, 1);
    assert_eq!(rt; opened(&mut tray, 0, 0, 0), Err(Refusal::WrongSets));
    assert_eq!(rt; opened(&mut tray, 9, 513, 17), Err(Refusal::WrongSets));
    assert_eq!(rt; opened(&mut tray, 8, 513, 17), Err(Refusal::WrongBudget));
    assert_eq!(rt; opened(&mut tray, 8, 512, 17), Err(Refusal::WrongDepth));
    assert_eq!(rt; opened(&mut tray, 8, 512, 16), Err(Refusal::NoMemory));
    assert_eq!(rt; opened(&mut tray, 1, 3, 2), Err(Refusal::NoMemory));
    assert_eq!(rt; opened(&mut tray, 1, 3, 1), Ok(()));
    assert_eq!(rt; singled(&mut tray, 0), Ok((3, 3)));
    assert_eq!(rt; opened(&mut tray, 1, 4, 1), Err(Refusal::NoMemory));
    assert_eq!(rt; negated(&mut tray), Ok((3, 3)));
}

#[test]
fn never_opened(rt: HostRuntime) {
    let mut tables = [0; 9];
    let mut spare = [0; 9];
    let mut tray = Tray::over(&mut tables, &mut spare);
    assert_eq!(rt; placed(&mut tray, 9, &[0]), Err(Refusal::NoPredicate));
    assert_eq!(rt;
        placed(&mut tray, Standard::SUB, &[0]),
        Err(Refusal::WrongPlaces)
    );
    assert_eq!(rt;
        placed(&mut tray, Standard::SUB, &[0, 0]),
        Err(Refusal::NoSet)
    );
    assert_eq!(rt; singled(&mut tray, 0), Err(Refusal::NoSet));
    assert_eq!(rt; both(&mut tray), Err(Refusal::TooFewTables));
    assert_eq!(rt; hidden(&mut tray, 0), Err(Refusal::NoSet));
    assert_eq!(rt; tray.judge(&mut [], &mut []), Err(Refusal::TooFewTables));
    assert_eq!(rt; tray.save(&mut []), Err(Refusal::TooFewTables));
}

// One table at most.
#[test]
fn refusals_in_order(rt: HostRuntime) {
    let mut tables = [0; 45];
    let mut spare = [0; 90];
    let mut tray = Tray::over(&mut tables, &mut spare);
    assert_eq!(rt; opened(&mut tray, 2, 9, 1), Ok(()));
    assert_eq!(rt; hidden(&mut tray, 2), Err(Refusal::NoSet));
    assert_eq!(rt; hidden(&mut tray, 1), Err(Refusal::TooFewTables));
    assert_eq!(rt; placed(&mut tray, Standard::SUB, &[1, 1]), Ok((1, 1)));
    assert_eq!(rt;
        placed(&mut tray, Standard::SUB, &[0, 2]),
        Err(Refusal::NoSet)
    );
    assert_eq!(rt;
        placed(&mut tray, Standard::SUB, &[0, 1]),
        Err(Refusal::Full)
    );
    assert_eq!(rt; singled(&mut tray, 2), Err(Refusal::NoSet));
    assert_eq!(rt; singled(&mut tray, 1), Err(Refusal::Full));
    assert_eq!(rt; both(&mut tray), Err(Refusal::TooFewTables));
    assert_eq!(rt; Refusal::Full.number(), 21);
}

// Too few records or links come before everything else, and short buffers before too few tables.
#[test]
fn lent_memory_first(rt: HostRuntime) {
    let mut tables = [0; 45];
    let mut spare = [0; 90];
    let mut tray = Tray::over(&mut tables, &mut spare);
    assert_eq!(rt; opened(&mut tray, 2, 9, 1), Ok(()));
    let few_links = tray.place(&Standard, 9, &[], &mut [0; 9], &mut [0; 71]);
    assert_eq!(rt; few_links, Err(Refusal::NoMemory));
    let few_records = tray.hide(2, &mut [StateSet::empty(); 8], &mut [0; 72]);
    assert_eq!(rt; few_records, Err(Refusal::NoMemory));
    let mut short = [0; 8];
    assert_eq!(rt; tray.judge(&mut [0; 9], &mut short), Err(Refusal::NoBuffer));
}
