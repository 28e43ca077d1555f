//! Worked values, and refusals in their order.
use super::*;
use books::{Book, NamedBook};

// Exactly one member.
const ONE: &[u8] = b"state accepts n0 n1\n0 0 0 1\n1 1 1 2\n2 0 2 2\n";

// What a draft over one place wants: 512 rows of three numbers.
const ROOM: usize = 1536;

// The calls. They promise nothing here, so that what a test does stays small for the prover.
fn begun(line: &[u8], memory: &[u16]) -> Result<u8, Unloaded> {
    let draft = Draft::begin(line, memory)?;
    let places = draft.places;
    draft.discard();
    Ok(places)
}

// What row answers to a draft over one place, and how many rows the draft has then.
fn rowed(rows: u16, memory: &mut [u16], line: &[u8]) -> (Result<(), Unloaded>, u16) {
    let mut draft = Draft {
        places: 1,
        rows: rows.min(512),
    };
    let answer = draft.row(memory, line);
    let rows = draft.rows;
    draft.discard();
    (answer, rows)
}

// What seal answers to a draft over one place.
fn sealed(rows: u16, memory: &[u16], name: &[u8], place: &mut Loaded) -> Result<(), Unloaded> {
    let draft = Draft {
        places: 1,
        rows: rows.min(512),
    };
    match draft.seal(memory, name, place) {
        Ok(()) => Ok(()),
        Err(Unsealed { why, draft }) => {
            draft.discard();
            Err(why)
        }
    }
}

fn loaded(text: &[u8], name: &[u8], place: &mut Loaded) -> Result<(), Fault> {
    load(text, &mut [0; ROOM], name, place)
}

fn count(book: &Loaded) -> u8 {
    book.count()
}

fn found(book: &Loaded, name: &[u8]) -> Option<u8> {
    book.find(name)
}

// The next states by columns 0 and 1, and whether the state accepts.
fn row_of(book: &Loaded, p: u8, s: u16) -> (u16, u16, bool) {
    (book.step(p, s, 0), book.step(p, s, 1), book.accepts(p, s))
}

// How many places and states, and in which it starts.
fn sizes(book: &Loaded, p: u8) -> (u8, u16, u16) {
    (book.places(p), book.states(p), book.start(p))
}

#[test]
fn exactly_one_member(rt: HostRuntime) {
    let mut book = Loaded::blank();
    assert_eq!(rt; count(&book), 0);
    assert_eq!(rt; found(&book, b"own"), None);
    assert_eq!(rt; found(&book, &[0; 3]), None);
    assert_eq!(rt; sizes(&book, 0), (0, 0, 0));
    assert_eq!(rt; loaded(ONE, b"own", &mut book), Ok(()));
    assert_eq!(rt; count(&book), 1);
    assert_eq!(rt; found(&book, b"own"), Some(0));
    assert_eq!(rt; found(&book, b"sub"), None);
    assert_eq!(rt; sizes(&book, 0), (1, 3, 0));
    assert_eq!(rt; row_of(&book, 0, 0), (0, 1, false));
    assert_eq!(rt; row_of(&book, 0, 1), (1, 2, true));
    assert_eq!(rt; row_of(&book, 0, 2), (2, 2, false));
    assert_eq!(rt; row_of(&book, 0, 3), (0, 0, false));
    assert_eq!(rt; sizes(&book, 1), (0, 0, 0));
    assert_eq!(rt; row_of(&book, 1, 1), (0, 0, false));
}

#[test]
fn begin(rt: HostRuntime) {
    let memory = [0; ROOM];
    let lines: [&[u8]; 4] = [
        b"",
        b"state accepts n0 n1",
        b"state accepts n0\n",
        b"state accepts n0 n1 n2 n3 n4 n5 n6 n7 n8 n9 n10 n11 n12 n13 n14 n15 n16 n17 n18 n19 n20 n21 n22 n23 n24 n25 n26 n27 n28 n29 n30 n31\n",
    ];
    for line in lines {
        assert_eq!(rt; begun(line, &memory), Err(Unloaded::WrongNames));
    }
    assert_eq!(rt;
        begun(b"state accepts n0 n1\n", &memory[..1535]),
        Err(Unloaded::NoMemory)
    );
    assert_eq!(rt; begun(b"state accepts n0 n1\n", &memory), Ok(1));
}

// A refused row changes nothing. The last of 512 rows is taken, and no further one.
#[test]
fn row(rt: HostRuntime) {
    let mut memory = [9; ROOM];
    for line in [b"0 0 0 1\n".as_slice(), b"1 0 70000 0\n", b"1 2 0 0\n"] {
        assert_eq!(rt; rowed(1, &mut memory, line), (Err(Unloaded::WrongLine), 1));
    }
    assert_eq!(rt;
        rowed(512, &mut [0; 1535], b"512 0 0 0\n"),
        (Err(Unloaded::NoMemory), 512)
    );
    assert_eq!(rt;
        rowed(512, &mut memory, b"512 0 0 0\n"),
        (Err(Unloaded::Full), 512)
    );
    assert!(rt; memory == [9; ROOM]);
    assert_eq!(rt; rowed(511, &mut memory, b"511 1 0 65535\n"), (Ok(()), 512));
    assert!(rt; memory[1532..] == [9, 0, 65535, 1]);
}

// Each refusal is mended in its turn.
#[test]
fn seal(rt: HostRuntime) {
    let mut book = Loaded::blank();
    let mut memory = [0; ROOM];
    assert_eq!(rt;
        sealed(0, &memory[..1535], b"ab", &mut book),
        Err(Unloaded::NoMemory)
    );
    for name in [b"ab".as_slice(), b"Abc", b"abcd"] {
        assert_eq!(rt; sealed(0, &memory, name, &mut book), Err(Unloaded::NoName));
    }
    assert_eq!(rt; sealed(0, &memory, b"own", &mut book), Err(Unloaded::NoRow));
    assert_eq!(rt; rowed(0, &mut memory, b"0 0 1 7\n"), (Ok(()), 1));
    assert_eq!(rt; rowed(1, &mut memory, b"1 1 1 1\n"), (Ok(()), 2));
    memory[5] = 2;
    assert_eq!(rt;
        sealed(2, &memory, b"own", &mut book),
        Err(Unloaded::WrongLine)
    );
    memory[5] = 1;
    assert_eq!(rt;
        sealed(2, &memory, b"own", &mut book),
        Err(Unloaded::NoState)
    );
    memory[1] = 0;
    assert_eq!(rt;
        sealed(2, &memory, b"own", &mut book),
        Err(Unloaded::Unsettled)
    );
    assert_eq!(rt; count(&book), 0);
    memory[2] = 1;
    assert_eq!(rt; sealed(2, &memory, b"own", &mut book), Ok(()));
    assert_eq!(rt; sizes(&book, 0), (1, 2, 0));
    assert_eq!(rt; row_of(&book, 0, 0), (1, 0, true));
}

// A refused draft comes back as it was.
#[test]
fn seal_again(rt: HostRuntime) {
    let mut book = Loaded::blank();
    let draft = Draft { places: 1, rows: 1 };
    let mut memory = [0; ROOM];
    memory[2] = 2;
    let Err(Unsealed { why, draft }) = draft.seal(&memory, b"own", &mut book) else {
        panic!(rt; "a draft with a wrong mark is sealed");
    };
    assert_eq!(rt; why, Unloaded::WrongLine);
    assert_eq!(rt; (draft.places, draft.rows), (1, 1));
    memory[2] = 1;
    if let Err(Unsealed { why, draft }) = draft.seal(&memory, b"own", &mut book) {
        draft.discard();
        panic!(rt; "a mended draft is refused: {why}");
    }
    assert_eq!(rt; sizes(&book, 0), (1, 1, 0));
}

// The number of the line at fault, or 0 where seal refuses.
#[test]
fn faults(rt: HostRuntime) {
    let mut book = Loaded::blank();
    let texts: [(&[u8], usize, Unloaded); 7] = [
        (b"", 1, Unloaded::WrongNames),
        (b"state accepts n0 n1", 1, Unloaded::WrongNames),
        (
            b"state accepts n0 n1\n0 0 0 1\n1 1 1 2",
            3,
            Unloaded::WrongLine,
        ),
        (
            b"state accepts n0 n1\n0 0 0 1\n1 1 1  2\n2 0 2 2\n",
            3,
            Unloaded::WrongLine,
        ),
        (b"state accepts n0 n1\n", 0, Unloaded::NoRow),
        (b"state accepts n0 n1\n0 0 0 1\n", 0, Unloaded::NoState),
        (
            b"state accepts n0 n1\n0 0 1 1\n1 1 1 1\n",
            0,
            Unloaded::Unsettled,
        ),
    ];
    for (text, line, why) in texts {
        assert_eq!(rt; loaded(text, b"own", &mut book), Err(Fault { line, why }));
    }
    let fault = Fault {
        line: 0,
        why: Unloaded::NoName,
    };
    assert_eq!(rt; loaded(ONE, b"own\n", &mut book), Err(fault));
    assert_eq!(rt; count(&book), 0);
    assert_eq!(rt; Unloaded::Unsettled.number(), 19);
    assert_eq!(rt; Unloaded::NoRow.number(), 24);
}
