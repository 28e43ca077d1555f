//! Calls of a tray as values, and what is replied to them.
ghost use Rattle.std.specs.Prelude.{◌≡◌};
ghost use Rattle.calls.specs.Names.{name_of};
ghost use Rattle.calls.specs.Replies.{built, dropped, saved, judged};

use books::Predicate;
use judging::Judgement;
use tray::Refusal;

/// A call of a tray. The sets of `Place` are listed in the order of the predicate's places.
#[derive(Clone, Copy)]
pub enum Call<'l> {
    Place(Predicate, &'l [u8]),
    Single(u8),
    Negate,
    Both,
    Either,
    Hide(u8),
    Drop,
    Save,
    Judge,
}

impl Call<'_> {
    /// The name of the tray's call.
    pub fn name(&self) -> &'static str
        ensures { result.now ≡ name_of self.now }
    {
        match self {
            Call::Place(..) => "place",
            Call::Single(_) => "single",
            Call::Negate => "negate",
            Call::Both => "both",
            Call::Either => "either",
            Call::Hide(_) => "hide",
            Call::Drop => "drop",
            Call::Save => "save",
            Call::Judge => "judge",
        }
    }
}

/// What is replied to a call.
#[derive(Clone, Copy, PartialEq, Eq, Debug)]
pub enum Reply {
    /// The first check that failed. Nothing changed.
    Refused(Refusal),
    /// A building call: how many states were met, and how many were kept.
    Built { met: usize, kept: usize },
    Dropped,
    /// How many bytes were written.
    Saved(usize),
    Judged(Judgement),
}

impl From<Result<(usize, usize), Refusal>> for Reply {
    ghost from_gives = { λ answer reply. reply ≡ built answer };

    fn from(answer: Result<(usize, usize), Refusal>) -> Reply {
        match answer {
            Ok((met, kept)) => Reply::Built { met, kept },
            Err(why) => Reply::Refused(why),
        }
    }
}

impl From<Result<(), Refusal>> for Reply {
    ghost from_gives = { λ answer reply. reply ≡ dropped answer };

    fn from(answer: Result<(), Refusal>) -> Reply {
        match answer {
            Ok(()) => Reply::Dropped,
            Err(why) => Reply::Refused(why),
        }
    }
}

impl From<Result<usize, Refusal>> for Reply {
    ghost from_gives = { λ answer reply. reply ≡ saved answer };

    fn from(answer: Result<usize, Refusal>) -> Reply {
        match answer {
            Ok(bytes) => Reply::Saved(bytes),
            Err(why) => Reply::Refused(why),
        }
    }
}

impl From<Result<Judgement, Refusal>> for Reply {
    ghost from_gives = { λ answer reply. reply ≡ judged answer };

    fn from(answer: Result<Judgement, Refusal>) -> Reply {
        match answer {
            Ok(judgement) => Reply::Judged(judgement),
            Err(why) => Reply::Refused(why),
        }
    }
}
