//! Questions and their answers.
use super::*;
use books::Standard;
use std::alloc::{AllocError, Global};

// Whether a question is answered by these lines. It promises nothing, so that what a test does stays small for the prover.
fn says(input: &[u8], lines: &[u8]) -> bool {
    decide(&Standard, input).as_slice() == lines
}

// Whether a text over so many sets, with a budget of 64 and a depth of 8, is judged so.
fn judged(alloc: Global, sets: &[u8], text: &[u8], values: &[u8]) -> Result<bool, AllocError> {
    let mut input = Vec::new(alloc);
    input.extend_from_slice(b"sets budget depth\n")?;
    input.extend_from_slice(sets)?;
    input.extend_from_slice(b" 64 8\n")?;
    input.extend_from_slice(text)?;
    let mut lines = Vec::new(alloc);
    lines.extend_from_slice(b"verdict states witness counter\n")?;
    lines.extend_from_slice(values)?;
    lines.push(b'\n')?;
    Ok(says(&input, &lines))
}

// Whether a question is refused so.
fn refused(alloc: Global, input: &[u8], values: &[u8]) -> Result<bool, AllocError> {
    let mut lines = Vec::new(alloc);
    lines.extend_from_slice(b"refusal layer place\n")?;
    lines.extend_from_slice(values)?;
    lines.push(b'\n')?;
    Ok(says(input, &lines))
}

#[test]
fn predicates(rt: HostRuntime) -> Result<(), AllocError> {
    let alloc = rt.alloc();
    assert_eq!(rt; judged(alloc, b"2", b"sub A B", b"some 2 . 1")?, true);
    assert_eq!(rt; judged(alloc, b"1", b"one A", b"some 3 1 .")?, true);
    assert_eq!(rt; judged(alloc, b"2", b"suc A B", b"some 4 1,2 .")?, true);
    assert_eq!(rt; judged(alloc, b"3", b"sum A B C", b"some 3 . 1")?, true);
    assert_eq!(rt; judged(alloc, b"2", b"sub x X", b"some 3 3 .")?, true);
    Ok(())
}

#[test]
fn marks(rt: HostRuntime) -> Result<(), AllocError> {
    let alloc = rt.alloc();
    assert_eq!(rt; judged(alloc, b"3", b"?C sum A B C", b"all 1 . -")?, true);
    assert_eq!(rt; judged(alloc, b"2", b"& one A one B", b"some 5 3 .")?, true);
    assert_eq!(rt; judged(alloc, b"2", b"?X!p sub p X", b"none 1 - .")?, true);
    assert_eq!(rt; judged(alloc, b"2", b"!p?X sub p X", b"all 1 . -")?, true);
    assert_eq!(rt;
        judged(alloc, b"2", b"& sub A B ?A one A", b"some 2 . 1")?,
        true
    );
    Ok(())
}

// A last line feed belongs to the text, and separates.
#[test]
fn a_last_line_feed(rt: HostRuntime) -> Result<(), AllocError> {
    let alloc = rt.alloc();
    assert_eq!(rt;
        says(
            b"sets budget depth\n2 8 4\nsub A B\n",
            b"verdict states witness counter\nsome 2 . 1\n",
        ),
        true
    );
    assert_eq!(rt;
        refused(alloc, b"sets budget depth\n2 8 4\nsub A\n", b"11 2 6")?,
        true
    );
    Ok(())
}

#[test]
fn first_lines(rt: HostRuntime) -> Result<(), AllocError> {
    let alloc = rt.alloc();
    assert_eq!(rt; refused(alloc, b"", b"16 1 0")?, true);
    assert_eq!(rt; refused(alloc, b"sets budget depth", b"16 1 0")?, true);
    assert_eq!(rt; refused(alloc, b"sets  budget depth\n", b"16 1 0")?, true);
    assert_eq!(rt; refused(alloc, b"sets budget depth\n", b"17 1 0")?, true);
    assert_eq!(rt;
        refused(alloc, b"sets budget depth\n2 8 4", b"17 1 0")?,
        true
    );
    assert_eq!(rt;
        refused(alloc, b"sets budget depth\n02 8 4\none A", b"17 1 0")?,
        true
    );
    assert_eq!(rt;
        refused(alloc, b"sets budget depth\n2 8 4 \none A", b"17 1 0")?,
        true
    );
    assert_eq!(rt;
        refused(alloc, b"sets budget depth\n2 65536 4\none A", b"17 1 0")?,
        true
    );
    Ok(())
}

// Settings out of range, and memory for them; 10,880 numbers are there.
#[test]
fn settings(rt: HostRuntime) -> Result<(), AllocError> {
    let alloc = rt.alloc();
    assert_eq!(rt;
        refused(alloc, b"sets budget depth\n9 65535 0\none A", b"1 3 0")?,
        true
    );
    assert_eq!(rt;
        refused(alloc, b"sets budget depth\n0 0 0\none A", b"1 3 0")?,
        true
    );
    assert_eq!(rt;
        refused(alloc, b"sets budget depth\n1 65535 1\none A", b"2 3 0")?,
        true
    );
    assert_eq!(rt;
        refused(alloc, b"sets budget depth\n1 8 17\none A", b"3 3 0")?,
        true
    );
    assert_eq!(rt;
        refused(alloc, b"sets budget depth\n4 64 9\none A", b"4 3 0")?,
        true
    );
    assert_eq!(rt;
        says(
            b"sets budget depth\n5 32 8\none A",
            b"verdict states witness counter\nsome 3 1 .\n",
        ),
        true
    );
    Ok(())
}

// A budget above 64 opens where the tables fit, and the first call lacks records, whatever its name's place.
#[test]
fn budgets(rt: HostRuntime) -> Result<(), AllocError> {
    let alloc = rt.alloc();
    assert_eq!(rt;
        refused(alloc, b"sets budget depth\n1 65 1\n one A", b"4 3 0")?,
        true
    );
    assert_eq!(rt;
        refused(alloc, b"sets budget depth\n1 2 4\none A", b"23 3 0")?,
        true
    );
    assert_eq!(rt;
        says(
            b"sets budget depth\n1 3 4\none A",
            b"verdict states witness counter\nsome 3 1 .\n",
        ),
        true
    );
    Ok(())
}

#[test]
fn faults_of_texts(rt: HostRuntime) -> Result<(), AllocError> {
    let alloc = rt.alloc();
    assert_eq!(rt;
        refused(alloc, b"sets budget depth\n3 8 4\n", b"11 2 0")?,
        true
    );
    assert_eq!(rt;
        refused(alloc, b"sets budget depth\n3 8 4\nsub A B C", b"13 2 8")?,
        true
    );
    assert_eq!(rt;
        refused(
            alloc,
            b"sets budget depth\n3 8 4\nsub A \xc3\xa9",
            b"10 1 6"
        )?,
        true
    );
    assert_eq!(rt;
        refused(alloc, b"sets budget depth\n3 8 1\n& one A one B", b"21 3 8")?,
        true
    );
    Ok(())
}

// The text `sub A B` with blanks behind it, of so many bytes in all.
fn padded(alloc: Global, bytes: usize) -> Result<Vec<u8>, AllocError> {
    let mut input = Vec::new(alloc);
    input.extend_from_slice(b"sets budget depth\n2 8 4\n")?;
    let mut text = Vec::new(alloc);
    text.extend_from_slice(b"sub A B")?;
    text.resize(bytes, b' ')?;
    input.extend_from_slice(&text)?;
    Ok(input)
}

// A text of 1,024 bytes is judged, and one of 1,025 is too long, also where only blanks are too many.
#[test]
fn the_longest_text(rt: HostRuntime) -> Result<(), AllocError> {
    let alloc = rt.alloc();
    let longest = padded(alloc, 1024)?;
    assert!(rt; matches!(answer_to(&Standard, &longest), Answer::Judged(_)));
    assert_eq!(rt;
        says(&longest, b"verdict states witness counter\nsome 2 . 1\n"),
        true
    );
    let longer = padded(alloc, 1025)?;
    assert!(rt;
        matches!(
            answer_to(&Standard, &longer),
            Answer::Refused {
                number: 9,
                layer: 1,
                place: 0
            }
        )
    );
    assert_eq!(rt; refused(alloc, &longer, b"9 1 0")?, true);
    let much_longer = padded(alloc, 9000)?;
    assert_eq!(rt; refused(alloc, &much_longer, b"9 1 0")?, true);
    Ok(())
}
