//! Calls in words.
use books::{Predicate, Standard};
use calls::Call;
use std::fmt;

// What a predicate of the standard book is called.
fn name_of(predicate: Predicate) -> &'static str {
    match predicate {
        Standard::SUB => "sub",
        Standard::ONE => "one",
        Standard::SUC => "suc",
        Standard::LES => "les",
        Standard::SUM => "sum",
        Standard::EMP => "emp",
        _ => "no predicate",
    }
}

/// A call with its predicate by name and its sets by number.
#[derive(Clone, Copy)]
pub struct Named<'l>(pub Call<'l>);

impl fmt::Display for Named<'_> {
    fn fmt<W: fmt::Write>(&self, f: &mut fmt::Formatter<W>) -> fmt::Result {
        f.write_str(self.0.name())?;
        match self.0 {
            Call::Place(predicate, listed) => write_placed(f, predicate, listed),
            Call::Single(set) | Call::Hide(set) => write!(f, " {set}"),
            _ => Ok(()),
        }
    }
}

fn write_placed<W: fmt::Write>(
    f: &mut fmt::Formatter<W>,
    predicate: Predicate,
    listed: &[u8],
) -> fmt::Result {
    write!(f, " {} on", name_of(predicate))?;
    for set in listed {
        write!(f, " {set}")?;
    }
    Ok(())
}

#[cfg(test)]
mod tests {
    use super::*;
    use std::alloc::AllocError;

    #[test]
    fn named(rt: HostRuntime) -> Result<(), AllocError> {
        for (call, wanted) in [
            (Call::Place(Standard::SUM, &[0, 1, 2]), "place sum on 0 1 2"),
            (Call::Single(1), "single 1"),
            (Call::Negate, "negate"),
            (Call::Hide(7), "hide 7"),
        ] {
            let text = format!(in rt.alloc(); "{}", Named(call))?;
            assert_eq!(rt; text.as_str(), wanted);
        }
        Ok(())
    }
}
