//! Why a text is refused.
ghost use Rattle.std.specs.Prelude.{◌≡◌};
ghost use Rattle.tray.specs.Refusals.{number_of};
ghost use Rattle.reading.specs.Building.{refused_place};
ghost use Rattle.reading.specs.Reasons.{reason_number, reason_layer};
ghost use Rattle.reading.specs.declared.fault.Reason.TheVariants.{Call as call};

use checks::layer_of;
use grammar::{Flaw, Flawed};
use tray::Refusal;

/// What is wrong: the text itself, or a building call that the tray refused.
#[derive(Clone, Copy, PartialEq, Eq, Debug)]
pub enum Reason {
    Text(Flaw),
    Call(Refusal),
}

/// Why a text is refused, and the byte of the text that it is refused for.
#[derive(Clone, Copy, PartialEq, Eq, Debug)]
pub struct Fault {
    pub reason: Reason,
    pub place: usize,
}

impl Reason {
    /// The number of the check that failed.
    pub fn number(self) -> u8
        ensures { result ≡ reason_number self }
    {
        match self {
            Reason::Text(flaw) => flaw.number(),
            Reason::Call(refusal) => refusal.number(),
        }
    }

    /// The layer of the check: 1 for the bytes, 2 for the grammar, and 3 for memory and the tray.
    pub fn layer(self) -> u8
        ensures { result ≡ reason_layer self }
    {
        layer_of(self.number())
    }
}

impl Fault {
    /// The fault of a building call that is refused, where its step has this place. Memory that is too short is no fault
    /// of the text, and has place 0.
    pub fn of_call(why: Refusal, place: u16) -> Fault
        ensures reason { result.reason ≡ call why }
        ensures place { result.place ≡ refused_place (number_of why) place }
    {
        let place = match why {
            Refusal::NoMemory => 0,
            _ => usize::from(place),
        };
        Fault {
            reason: Reason::Call(why),
            place,
        }
    }
}

/// A call that no part of the text asks for, as open or judge, is refused at place 0.
impl From<Refusal> for Fault {
    ghost use Rattle.reading.specs.Reasons.{fault_of_call};

    ghost from_gives = { λ why fault. fault ≡ fault_of_call why };

    fn from(why: Refusal) -> Fault {
        Fault {
            reason: Reason::Call(why),
            place: 0,
        }
    }
}

/// A flaw of the text is what the text is refused for.
impl From<Flawed> for Fault {
    ghost use Rattle.reading.specs.Reasons.{fault_of};

    ghost from_gives = { λ flawed fault. fault ≡ fault_of flawed };

    fn from(flawed: Flawed) -> Fault {
        Fault {
            reason: Reason::Text(flawed.flaw),
            place: flawed.place,
        }
    }
}
