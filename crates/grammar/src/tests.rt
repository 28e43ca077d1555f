//! Plans and refusals worked out by hand, against the standard book.
use super::*;
use books::Standard;
use std::alloc::AllocError;

// What the memory has where nothing is written.
const OLD: Step = Step {
    place: 999,
    build: Build::Single(9),
};

// Room for texts of 100 bytes.
const ROOM: usize = 316;

// Room for a text of one byte too many.
const MOST_ROOM: usize = 3091;

fn one(place: u16, set: u8) -> Step {
    let build = Build::Place {
        predicate: Standard::ONE,
        sets: [set, 0, 0, 0],
        places: 1,
    };
    Step { place, build }
}

fn two(place: u16, predicate: u8, first: u8, second: u8) -> Step {
    let build = Build::Place {
        predicate,
        sets: [first, second, 0, 0],
        places: 2,
    };
    Step { place, build }
}

fn sub(place: u16, first: u8, second: u8) -> Step {
    two(place, Standard::SUB, first, second)
}

fn les(place: u16, first: u8, second: u8) -> Step {
    two(place, Standard::LES, first, second)
}

fn sum(place: u16, first: u8, second: u8, third: u8) -> Step {
    let build = Build::Place {
        predicate: Standard::SUM,
        sets: [first, second, third, 0],
        places: 3,
    };
    Step { place, build }
}

fn single(place: u16, set: u8) -> Step {
    let build = Build::Single(set);
    Step { place, build }
}

fn negate(place: u16) -> Step {
    let build = Build::Negate;
    Step { place, build }
}

fn both(place: u16) -> Step {
    let build = Build::Both;
    Step { place, build }
}

fn either(place: u16) -> Step {
    let build = Build::Either;
    Step { place, build }
}

fn hide(place: u16, set: u8) -> Step {
    let build = Build::Hide(set);
    Step { place, build }
}

// Whether exactly these steps are planned for a text over so many sets, and the memory behind them is as it was.
fn plans(text: &[u8], sets: usize, wanted: &[Step]) -> bool {
    let mut steps = [OLD; ROOM];
    match plan_text(&Standard, text, sets, &mut steps) {
        Ok(count) => {
            steps.get(..count) == Some(wanted) && steps[count..].iter().all(|step| *step == OLD)
        }
        Err(_) => false,
    }
}

// How many steps are planned, or the number and the place of what is wrong.
fn planned(text: &[u8], sets: usize, steps: &mut [Step]) -> Result<usize, (u8, usize)> {
    match plan_text(&Standard, text, sets, steps) {
        Ok(count) => Ok(count),
        Err(Flawed { flaw, place }) => Err((flaw.number(), place)),
    }
}

fn refused(text: &[u8], sets: usize) -> Option<(u8, usize)> {
    planned(text, sets, &mut [OLD; ROOM]).err()
}

#[test]
fn predicates(rt: HostRuntime) {
    assert!(rt; plans(b"sub A B", 3, &[sub(0, 0, 1)]));
    assert!(rt; plans(b"\n sum A A\nB ", 2, &[sum(2, 0, 0, 1)]));
}

// The parts are built left before right, and then their mark; the left part of an implication is negated in between.
#[test]
fn connectives(rt: HostRuntime) {
    assert!(rt; plans(b"~ one A", 1, &[one(2, 0), negate(0)]));
    assert!(rt; plans(b"& one A one B", 3, &[one(2, 0), one(8, 1), both(0)]));
    assert!(rt; plans(b"|one A one B", 2, &[one(1, 0), one(7, 1), either(0)]));
    let implies = [one(2, 0), negate(0), one(8, 1), either(0)];
    assert!(rt; plans(b"> one A one B", 3, &implies));
    let nested = [
        one(2, 0),
        one(8, 1),
        both(1),
        negate(0),
        one(14, 0),
        negate(13),
        either(0),
    ];
    assert!(rt; plans(b">&one A one B~one A", 2, &nested));
}

// A position's set has exactly one member before it is hidden.
#[test]
fn quantifiers(rt: HostRuntime) {
    assert!(rt; plans(b"?C sum A B C", 3, &[sum(3, 1, 2, 0), hide(0, 0)]));
    let some = [sub(3, 0, 1), single(0, 0), both(0), hide(0, 0)];
    assert!(rt; plans(b"?x sub x X", 3, &some));
    let every = [
        sub(5, 0, 1),
        hide(2, 1),
        negate(0),
        single(0, 0),
        both(0),
        hide(0, 0),
        negate(0),
    ];
    assert!(rt; plans(b"!x?X sub x X", 3, &every));
    let absent = [one(3, 1), single(0, 0), both(0), hide(0, 0)];
    assert!(rt; plans(b"?x one A", 2, &absent));
    let twice = [
        one(6, 0),
        single(3, 0),
        both(3),
        hide(3, 0),
        negate(0),
        single(0, 0),
        both(0),
        hide(0, 0),
        negate(0),
    ];
    assert!(rt; plans(b"!x ?x one x", 1, &twice));
}

// A free position's set has exactly one member at the end, at the place where the position first stands free.
#[test]
fn free_positions(rt: HostRuntime) {
    assert!(rt; plans(b"sub x X", 3, &[sub(0, 0, 1), single(4, 0), both(4)]));
    assert!(rt; plans(b"sub x x", 1, &[sub(0, 0, 0), single(4, 0), both(4)]));
    let other_bound = [sub(3, 1, 0), hide(0, 0), single(7, 1), both(7)];
    assert!(rt; plans(b"?X sub x X", 2, &other_bound));
    let bound_before = [
        sub(5, 0, 1),
        single(2, 0),
        both(2),
        hide(2, 0),
        sub(13, 0, 1),
        both(0),
        single(17, 0),
        both(17),
    ];
    assert!(rt; plans(b"& ?x sub x X sub x X", 3, &bound_before));
    let bound_after = [
        sub(2, 0, 1),
        sub(13, 0, 1),
        single(10, 0),
        both(10),
        hide(10, 0),
        both(0),
        single(6, 0),
        both(6),
    ];
    assert!(rt; plans(b"& sub x X ?x sub x X", 3, &bound_after));
}

// The lowest set comes first, also where its position stands free behind the other.
#[test]
fn several_positions(rt: HostRuntime) {
    let in_order = [les(0, 0, 1), single(4, 0), both(4), single(6, 1), both(6)];
    assert!(rt; plans(b"les x y", 2, &in_order));
    let swapped = [
        sub(5, 0, 1),
        single(2, 0),
        both(2),
        hide(2, 0),
        sub(15, 2, 1),
        sub(23, 0, 1),
        both(13),
        both(0),
        single(27, 0),
        both(27),
        single(19, 2),
        both(19),
    ];
    assert!(rt; plans(b"& ?x sub x X & sub y X sub x X", 3, &swapped));
}

// More than eight sets count as eight.
#[test]
fn eight_sets(rt: HostRuntime) {
    let wanted = [
        les(2, 0, 1),
        les(12, 2, 3),
        les(22, 4, 5),
        les(30, 6, 7),
        both(20),
        both(10),
        both(0),
        single(6, 0),
        both(6),
        single(8, 1),
        both(8),
        single(16, 2),
        both(16),
        single(18, 3),
        both(18),
        single(26, 4),
        both(26),
        single(28, 5),
        both(28),
        single(34, 6),
        both(34),
        single(36, 7),
        both(36),
    ];
    let eight = b"& les a b & les c d & les e f les g h";
    let nine = b"& sub A B & sub C D & sub E F & sub G H one I";
    assert_eq!(rt; refused(eight, 7), Some((15, 36)));
    for sets in [8, 9, 256, usize::MAX] {
        assert!(rt; plans(eight, sets, &wanted), "over {sets} sets");
        assert_eq!(rt; refused(nine, sets), Some((15, 44)), "over {sets} sets");
    }
}

// Over two sets. The first token that cannot stand where it does decides.
#[test]
fn refusals(rt: HostRuntime) {
    let refusals = [
        (b"".as_slice(), 11, 0),
        (b" \n ", 11, 3),
        (b"sub A", 11, 5),
        (b"sub A  ", 11, 7),
        (b"& sub A B", 11, 9),
        (b"?", 11, 1),
        (b"?A", 11, 2),
        (b"sub A B C", 13, 8),
        (b"sub A B ~", 13, 8),
        (b"A", 13, 0),
        (b"? sub A B", 13, 2),
        (b"!~one A", 13, 1),
        (b"sub sub A", 13, 4),
        (b"sub A abc", 13, 6),
        (b"abc A", 14, 0),
        (b"sum A B C", 15, 8),
        (b"?A&?B one B ?C one C", 15, 13),
        (b"ab A", 10, 0),
        (b"one \xC8", 10, 4),
        (b"\t", 10, 0),
        (b"one A\t", 10, 5),
        (b"? Sub", 10, 2),
        (b"abc \t", 14, 0),
        (b"sub sub ab", 13, 4),
        (b"ab sub sub", 10, 0),
    ];
    for (text, number, place) in refusals {
        assert_eq!(rt; refused(text, 2), Some((number, place)), "at {text:?}");
    }
}

// The last variable has the last set, or one too many.
#[test]
fn variables_and_sets(rt: HostRuntime) {
    assert_eq!(rt; refused(b"one A", 0), Some((15, 4)));
    assert_eq!(rt; refused(b"sub A C", 1), Some((15, 6)));
    assert_eq!(rt; refused(b"sub A C", 2), None);
    assert_eq!(rt; refused(b"sub A B C", 3), Some((13, 8)));
}

// What is refused of a formula behind so many marks, over one set.
fn behind(marks: usize, formula: &[u8]) -> Option<(u8, usize)> {
    let mut text = [b'~'; 60];
    for (i, byte) in text.iter_mut().enumerate() {
        if let Some(at) = i.checked_sub(marks) {
            *byte = formula.get(at).copied().unwrap_or(b' ');
        }
    }
    refused(&text, 1)
}

// A formula stands inside 32 others at most; what is no token or begins no formula is refused for that.
#[test]
fn nesting(rt: HostRuntime) {
    let mut wanted = [one(32, 0); 33];
    for i in 0..32 {
        wanted[32 - i] = negate(i as u16);
    }
    let text = b"~~~~~~~~~~~~~~~~~~~~~~~~~~~~~~~~one A";
    assert!(rt; plans(text, 1, &wanted));
    for formula in [b"one A".as_slice(), b"~one A", b"&", b"?A", b"abc A"] {
        assert_eq!(rt; behind(33, formula), Some((12, 33)), "at {formula:?}");
    }
    assert_eq!(rt; behind(33, b""), Some((11, 60)));
    assert_eq!(rt; behind(33, b"A"), Some((13, 33)));
    assert_eq!(rt; behind(33, b"ab"), Some((10, 33)));
    assert_eq!(rt; behind(32, b"?A one A"), Some((12, 35)));
    assert_eq!(rt; behind(31, b"&one A?A one A"), Some((12, 40)));
    assert_eq!(rt; behind(31, b"&one A one A"), None);
}

#[test]
fn longest(rt: HostRuntime) {
    let mut steps = [OLD; MOST_ROOM];
    let mut text = [b' '; 1025];
    assert_eq!(rt; planned(&text, 3, &mut steps), Err((9, 0)));
    assert_eq!(rt; planned(&text, 3, &mut []), Err((9, 0)));
    assert_eq!(rt; planned(&text[1..], 3, &mut steps), Err((11, 1024)));
    text[1020..].copy_from_slice(b"one A");
    assert_eq!(rt; planned(&text, 3, &mut steps), Err((9, 0)));
    assert_eq!(rt; planned(&text[1..], 3, &mut steps), Ok(1));
    assert_eq!(rt; steps[0], one(1019, 0));
    assert_eq!(rt; planned(&[b'~'; 1024], 3, &mut steps), Err((12, 33)));
}

// Three steps for each byte and 16 more are asked for, before the text is read.
#[test]
fn room(rt: HostRuntime) {
    let mut steps = [OLD; 31];
    assert_eq!(rt; planned(b"one x", 1, &mut steps), Ok(3));
    assert!(rt; steps[..3] == [one(0, 0), single(4, 0), both(4)]);
    assert_eq!(rt; planned(b"one x", 1, &mut [OLD; 30]), Err((4, 0)));
    assert_eq!(rt; planned(b"", 1, &mut [OLD; 16]), Err((11, 0)));
    assert_eq!(rt; planned(b"", 1, &mut [OLD; 15]), Err((4, 0)));
}

#[test]
fn laws(rt: HostRuntime) {
    laws_of_texts();
}

#[test]
fn numbers(rt: HostRuntime) {
    assert_eq!(rt; Flaw::NoRoom.number(), 4);
    assert_eq!(rt; Flaw::TooLong.number(), 9);
    assert_eq!(rt; Flaw::NoToken.number(), 10);
    assert_eq!(rt; Flaw::Unfinished.number(), 11);
    assert_eq!(rt; Flaw::TooDeep.number(), 12);
    assert_eq!(rt; Flaw::NotDue.number(), 13);
    assert_eq!(rt; Flaw::UnknownName.number(), 14);
    assert_eq!(rt; Flaw::TooManyVariables.number(), 15);
    assert_eq!(rt; Flaw::NoToken.layer(), 1);
    assert_eq!(rt; Flaw::Unfinished.layer(), 2);
    assert_eq!(rt; Flaw::NoRoom.layer(), 3);
}

#[test]
fn reasons(rt: HostRuntime) -> Result<(), AllocError> {
    let reasons = [
        (
            Flaw::NoRoom,
            "the memory for steps is too short for the text",
        ),
        (Flaw::TooLong, "the text is longer than 1,024 bytes"),
        (
            Flaw::NoToken,
            "this is no mark, name, variable, space or line feed",
        ),
        (
            Flaw::Unfinished,
            "the text ends before the formula is complete",
        ),
        (Flaw::TooDeep, "a formula stands inside more than 32 others"),
        (
            Flaw::NotDue,
            "another kind of token is due here, or the formula is complete",
        ),
        (Flaw::UnknownName, "the book has no predicate of this name"),
        (Flaw::TooManyVariables, "there are more variables than sets"),
    ];
    for (flaw, wanted) in reasons {
        let text = format!(in rt.alloc(); "{flaw}")?;
        assert_eq!(rt; text.as_str(), wanted);
    }
    Ok(())
}
