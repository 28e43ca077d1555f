//! A text on one line, and a place in it.
use std::fmt;

/// A text on one line, in which each byte takes one column.
#[derive(Clone, Copy)]
pub struct OneLine<'t>(pub &'t [u8]);

// A line feed is shown as a blank, and a byte that cannot be shown as the sign for that.
fn shown(byte: u8) -> char {
    match byte {
        b'\n' => ' ',
        b' '..=b'~' => char::from(byte),
        _ => char::REPLACEMENT_CHARACTER,
    }
}

impl fmt::Display for OneLine<'_> {
    fn fmt<W: fmt::Write>(&self, f: &mut fmt::Formatter<W>) -> fmt::Result {
        for byte in self.0 {
            f.write_char(shown(*byte))?;
        }
        Ok(())
    }
}

/// So many blanks.
#[derive(Clone, Copy)]
pub struct Blanks(pub usize);

impl fmt::Display for Blanks {
    fn fmt<W: fmt::Write>(&self, f: &mut fmt::Formatter<W>) -> fmt::Result {
        for _ in 0..self.0 {
            f.write_char(' ')?;
        }
        Ok(())
    }
}

#[cfg(test)]
mod tests {
    use super::*;
    use std::alloc::AllocError;

    // A tab, and the two bytes of an e with an accent.
    #[test]
    fn one_column_a_byte(rt: HostRuntime) -> Result<(), AllocError> {
        let line = format!(in rt.alloc(); "{}", OneLine(b"~\n one\t\xc3\xa9"))?;
        assert_eq!(rt; line.as_str(), "~  one\u{fffd}\u{fffd}\u{fffd}");
        let blanks = format!(in rt.alloc(); "{}|", Blanks(3))?;
        assert_eq!(rt; blanks.as_str(), "   |");
        Ok(())
    }
}
