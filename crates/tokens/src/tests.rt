//! Listings worked out by hand, against the standard book.
use super::*;
use books::Standard;

// What the memory has where nothing is written.
const OLD: Item = Item {
    place: 999,
    sense: Sense::Unknown,
};

fn mark(place: u16, mark: Mark) -> Item {
    Item {
        place,
        sense: Sense::Mark(mark),
    }
}

fn predicate(place: u16, number: u8, places: u8) -> Item {
    Item {
        place,
        sense: Sense::Predicate { number, places },
    }
}

fn unknown(place: u16) -> Item {
    Item {
        place,
        sense: Sense::Unknown,
    }
}

fn variable(place: u16, letter: u8, set: u16) -> Item {
    Item {
        place,
        sense: Sense::Variable { letter, set },
    }
}

fn wrong(place: u16) -> Item {
    Item {
        place,
        sense: Sense::Wrong,
    }
}

// Whether a text lists exactly these items, and the memory behind them is as it was.
fn lists(text: &[u8], wanted: &[Item]) -> bool {
    let old = [OLD; 20];
    let mut items = old;
    match list_items(&Standard, text, &mut items) {
        Some(count) => &items[..count] == wanted && items[count..] == old[count..],
        None => false,
    }
}

// The tokens of a text, each from the end of the one before.
#[test]
fn tokens_in_a_row(rt: HostRuntime) {
    let text = b"sub  A\n&abcd";
    let name = Token::Name {
        place: 0,
        name: b"sub",
    };
    let variable = Token::Variable {
        place: 5,
        letter: &b'A',
    };
    let mark = Token::Mark {
        place: 7,
        byte: &b'&',
        mark: Mark::Both,
    };
    let wrong = NoToken {
        place: 8,
        bytes: b"abcd",
    };
    let next = |token, end| Some(Part { token, end });
    assert_eq!(rt; next_token(text, 0), next(Ok(name), 3));
    assert_eq!(rt; next_token(text, 3), next(Ok(variable), 6));
    assert_eq!(rt; next_token(text, 6), next(Ok(mark), 8));
    assert_eq!(rt; next_token(text, 8), next(Err(wrong), 12));
    assert_eq!(rt; next_token(text, 12), None);
    assert_eq!(rt; next_token(b"A \n", 1), None);
    assert_eq!(rt; next_token(b"A", 7), None);
}

#[test]
fn no_piece(rt: HostRuntime) {
    for text in [b"".as_slice(), b" ", b"\n", b"  \n \n\n "] {
        assert!(rt; lists(text, &[]));
    }
}

#[test]
fn predicate_and_variables(rt: HostRuntime) {
    let wanted = [
        predicate(0, Standard::SUB, 2),
        variable(4, b'A', 0),
        variable(6, b'B', 1),
    ];
    assert!(rt; lists(b"sub A B", &wanted));
}

// A letter that comes again has its first number, and small and large letters are apart.
#[test]
fn letters_again(rt: HostRuntime) {
    let wanted = [
        variable(0, b'A', 0),
        variable(2, b'a', 1),
        variable(4, b'A', 0),
    ];
    assert!(rt; lists(b"A a\nA", &wanted));
}

// A mark needs no blank on either side.
#[test]
fn marks_between(rt: HostRuntime) {
    let wanted = [
        mark(0, Mark::Some),
        variable(1, b'x', 0),
        mark(2, Mark::Both),
        predicate(3, Standard::SUB, 2),
        variable(7, b'x', 0),
        variable(9, b'X', 1),
        mark(10, Mark::Not),
        predicate(11, Standard::ONE, 1),
        variable(15, b'x', 0),
    ];
    assert!(rt; lists(b"?x&sub x X~one x", &wanted));
}

#[test]
fn marks(rt: HostRuntime) {
    let wanted = [
        mark(0, Mark::Every),
        mark(1, Mark::Either),
        mark(2, Mark::Implies),
    ];
    assert!(rt; lists(b"!|>", &wanted));
}

#[test]
fn runs_of_letters(rt: HostRuntime) {
    let wanted = [unknown(0), predicate(4, Standard::SUM, 3)];
    assert!(rt; lists(b"abc sum", &wanted));
    for text in [b"ab".as_slice(), b"Sub", b"suB", b"subs", b"subsub"] {
        assert!(rt; lists(text, &[wrong(0)]), "at {text:?}");
    }
}

#[test]
fn other_bytes(rt: HostRuntime) {
    let wanted = [
        wrong(0),
        mark(1, Mark::Not),
        wrong(2),
        wrong(3),
        variable(4, b'a', 0),
        wrong(5),
        wrong(6),
    ];
    assert!(rt; lists(b"\t~\xC3\xA4a0\0", &wanted));
}

#[test]
fn longest(rt: HostRuntime) {
    let text = [b'~'; LONGEST + 1];
    let mut items = [OLD; LONGEST + 1];
    assert_eq!(rt; list_items(&Standard, &text, &mut items), None);
    assert!(rt; items == [OLD; LONGEST + 1]);
    assert_eq!(rt;
        list_items(&Standard, &text[1..], &mut items),
        Some(LONGEST)
    );
    assert!(rt; items[LONGEST - 1..] == [mark(1023, Mark::Not), OLD]);
}

// The memory has to have room for each byte of the text, also where there are fewer pieces.
#[test]
fn no_room(rt: HostRuntime) {
    let mut items = [OLD; 8];
    assert_eq!(rt; list_items(&Standard, b"sum A B C", &mut items), None);
    assert!(rt; items == [OLD; 8]);
    assert_eq!(rt; list_items(&Standard, b"sum  A B", &mut items), Some(3));
}
