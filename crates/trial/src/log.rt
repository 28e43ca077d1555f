//! The log of a tray: each call beside what was replied to it.
use books::{Predicate, Standard};
use calls::{Call, Reply};
use std::fmt;

/// A line of the log: a call and the reply to it.
#[derive(Clone, Copy)]
pub struct Entry<'l> {
    pub call: Call<'l>,
    pub reply: Reply,
}

impl fmt::Display for Entry<'_> {
    fn fmt<W: fmt::Write>(&self, f: &mut fmt::Formatter<W>) -> fmt::Result {
        write_call(f, self.call)?;
        f.write_str(": ")?;
        write_reply(f, self.reply)
    }
}

// A call with its predicate by name and its sets by number.
fn write_call<W: fmt::Write>(f: &mut fmt::Formatter<W>, call: Call) -> fmt::Result {
    f.write_str(call.name())?;
    match call {
        Call::Place(predicate, listed) => {
            write!(f, " {} on ", name_of(predicate))?;
            write_listed(f, listed)
        }
        Call::Single(set) | Call::Hide(set) => write!(f, " {set}"),
        Call::Negate | Call::Both | Call::Either | Call::Drop | Call::Save | Call::Judge => Ok(()),
    }
}

fn name_of(predicate: Predicate) -> &'static str {
    match predicate {
        Standard::SUB => "sub",
        Standard::ONE => "one",
        Standard::SUC => "suc",
        Standard::LES => "les",
        Standard::SUM => "sum",
        Standard::EMP => "emp",
        _ => "no predicate",
    }
}

// The sets with commas between.
fn write_listed<W: fmt::Write>(f: &mut fmt::Formatter<W>, listed: &[u8]) -> fmt::Result {
    for (place, set) in listed.iter().enumerate() {
        let comma = if place == 0 { "" } else { "," };
        write!(f, "{comma}{set}")?;
    }
    Ok(())
}

fn write_reply<W: fmt::Write>(f: &mut fmt::Formatter<W>, reply: Reply) -> fmt::Result {
    match reply {
        Reply::Refused(why) => write!(f, "refused, check {}: {why}", why.number()),
        Reply::Built { met, kept } => write!(f, "{met} met, {kept} kept"),
        Reply::Dropped => write!(f, "dropped"),
        Reply::Saved(bytes) => write!(f, "{bytes} bytes"),
        Reply::Judged(judgement) => write!(f, "{} states", judgement.states),
    }
}

#[cfg(test)]
mod tests {
    use super::*;
    use std::alloc::{AllocError, Global};
    use tray::Refusal;

    fn shown(alloc: Global, call: Call, reply: Reply, text: &str) -> Result<bool, AllocError> {
        let entry = Entry { call, reply };
        Ok(format!(in alloc; "{entry}")?.as_str() == text)
    }

    #[test]
    fn entries_in_words(rt: HostRuntime) -> Result<(), AllocError> {
        let alloc = rt.alloc();
        let built = Reply::Built { met: 3, kept: 2 };
        let many = Reply::Refused(Refusal::TooManyStates);
        let short = Reply::Refused(Refusal::NoMemory);
        let sum = Call::Place(Standard::SUM, &[0, 1, 2]);
        assert!(rt; shown(alloc, sum, built, "place sum on 0,1,2: 3 met, 2 kept")?);
        assert!(rt; shown(alloc, Call::Negate, built, "negate: 3 met, 2 kept")?);
        assert!(rt;
            shown(
                alloc,
                Call::Hide(2),
                many,
                "hide 2: refused, check 23: more states are met than the budget"
            )?
        );
        assert!(rt;
            shown(
                alloc,
                Call::Single(1),
                short,
                "single 1: refused, check 4: memory that the call was given is too short"
            )?
        );
        Ok(())
    }
}
