//! Words drawn as rows of bits.
use crate::letters::{Letter, Letters};
use crate::line::Blanks;
use std::alloc::{AllocError, Global};
use std::fmt;
use words::{in_set, is_member, number};

// The bits of one set of a word, position 0 first.
#[derive(Clone, Copy)]
struct Bits<'w> {
    word: &'w [u8],
    set: u8,
}

impl fmt::Display for Bits<'_> {
    fn fmt<W: fmt::Write>(&self, f: &mut fmt::Formatter<W>) -> fmt::Result {
        for column in self.word {
            f.write_char(if in_set(*column, self.set) { '1' } else { '0' })?;
        }
        if !self.word.is_empty() {
            f.write_str("  ")?;
        }
        Ok(())
    }
}

// The members of a set.
#[derive(Clone, Copy)]
struct Members(u64);

impl fmt::Display for Members {
    fn fmt<W: fmt::Write>(&self, f: &mut fmt::Formatter<W>) -> fmt::Result {
        let mut before = "{";
        for position in 0..64 {
            if is_member(self.0, position) {
                write!(f, "{before}{position}")?;
                before = ", ";
            }
        }
        f.write_str(if self.0 == 0 { "{}" } else { "}" })
    }
}

// What a letter stands for where it has this set.
#[derive(Clone, Copy)]
struct Meaning {
    letter: Letter,
    set: u64,
}

impl fmt::Display for Meaning {
    fn fmt<W: fmt::Write>(&self, f: &mut fmt::Formatter<W>) -> fmt::Result {
        let Meaning { letter, set } = *self;
        if !letter.is_position() {
            return write!(f, "= {set}");
        }
        if set.is_power_of_two() {
            return write!(f, "position {}", set.trailing_zeros());
        }
        f.write_str("no position")
    }
}

// How many columns a word has.
#[derive(Clone, Copy)]
struct Length(usize);

impl fmt::Display for Length {
    fn fmt<W: fmt::Write>(&self, f: &mut fmt::Formatter<W>) -> fmt::Result {
        match self.0 {
            0 => f.write_str("the empty word"),
            1 => f.write_str("1 column"),
            columns => write!(f, "{columns} columns"),
        }
    }
}

// How many signs the members of a set take.
fn members_length(alloc: Global, set: u64) -> Result<usize, AllocError> {
    let members = format!(in alloc; "{}", Members(set))?;
    Ok(members.len())
}

// The letter of a set, if it stands free. The set of one that is bound everywhere makes no difference.
fn free_letter(letters: &Letters, set: u8) -> Option<Letter> {
    let letter = letters.get(usize::from(set)).copied().flatten()?;
    letter.free.then_some(letter)
}

// The most signs that the members of a free letter's set take.
fn widest(alloc: Global, letters: &Letters, word: &[u8]) -> Result<usize, AllocError> {
    let mut most = 0;
    for set in 0..8 {
        if free_letter(letters, set).is_some() {
            let members = number(word, set).unwrap_or(0);
            most = members_length(alloc, members)?.max(most);
        }
    }
    Ok(most)
}

// A letter's row: the bits of its set, the set with as many signs as the widest, and what the letter stands for. A set of
// more than 64 columns is drawn as bits alone.
fn tell_row(
    rt: &(impl Print + AllocGlobal),
    letter: Letter,
    bits: Bits,
    width: usize,
) -> anyhow::Result<()> {
    let Some(set) = number(bits.word, bits.set) else {
        println!(rt; "  {letter}  {bits}")?;
        return Ok(());
    };
    let blanks = Blanks(width.saturating_sub(members_length(rt.alloc(), set)?));
    println!(rt;
        "  {letter}  {bits}{}{blanks}  {}",
        Members(set),
        Meaning { letter, set }
    )?;
    Ok(())
}

/// Prints a word as a row of bits for each letter that stands free, or that there is no such word.
pub fn tell_word(
    rt: &(impl Print + AllocGlobal),
    name: &str,
    letters: &Letters,
    word: Option<&[u8]>,
) -> anyhow::Result<()> {
    let Some(word) = word else {
        println!(rt; "There is no {name}.")?;
        return Ok(());
    };
    if letters.iter().flatten().all(|letter| !letter.free) {
        println!(rt; "{name}, {}; no letter stands free", Length(word.len()))?;
        return Ok(());
    }
    println!(rt; "{name}, {}:", Length(word.len()))?;
    let width = widest(rt.alloc(), letters, word)?;
    for set in 0..8 {
        if let Some(letter) = free_letter(letters, set) {
            tell_row(rt, letter, Bits { word, set }, width)?;
        }
    }
    Ok(())
}

#[cfg(test)]
mod tests {
    use super::*;

    fn letter(letter: u8) -> Letter {
        Letter {
            letter,
            free: true,
            bound: false,
        }
    }

    // 2^0 + 2^2 + 2^10 = 1029.
    #[test]
    fn sets(rt: HostRuntime) -> Result<(), AllocError> {
        for (set, wanted) in [(0, "{}"), (1, "{0}"), (1029, "{0, 2, 10}")] {
            let text = format!(in rt.alloc(); "{}", Members(set))?;
            assert_eq!(rt; text.as_str(), wanted);
            assert_eq!(rt; members_length(rt.alloc(), set)?, wanted.len());
        }
        Ok(())
    }

    #[test]
    fn rows(rt: HostRuntime) -> Result<(), AllocError> {
        for (set, wanted) in [(0, "101  "), (1, "011  "), (2, "000  ")] {
            let text = format!(in rt.alloc();
                "{}",
                Bits {
                    word: &[1, 2, 3],
                    set
                }
            )?;
            assert_eq!(rt; text.as_str(), wanted);
        }
        Ok(())
    }

    #[test]
    fn meanings(rt: HostRuntime) -> Result<(), AllocError> {
        for (name, set, wanted) in [
            (b'A', 0, "= 0"),
            (b'A', 5, "= 5"),
            (b'x', 0, "no position"),
            (b'x', 3, "no position"),
            (b'x', 8, "position 3"),
        ] {
            let letter = letter(name);
            let text = format!(in rt.alloc(); "{}", Meaning { letter, set })?;
            assert_eq!(rt; text.as_str(), wanted);
        }
        Ok(())
    }
}
