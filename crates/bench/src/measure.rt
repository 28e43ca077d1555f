//! Making the calls, and telling the counts of each and, where it is asked for, its time.
use crate::chain;
use crate::multiples::GROWTH;
use books::Standard;
use calls::{Call, Output, Reply, WorkFor, make};
use std::io;
use std::rt::Clock;
use std::time::{Duration, Instant};
use tray::{Refusal, Tray};

/// How many states one call may meet: as many as a tray can have.
pub const BUDGET: usize = 512;

/// How many tables the tray holds at most.
pub const DEPTH: usize = 2;

// What is made after a part: the claim on top is judged.
const JUDGED: [Call; 1] = [Call::Judge];

/// How many sets the claims are over, and whether times are told.
#[derive(Clone, Copy)]
pub struct Setting {
    pub sets: usize,
    pub timed: bool,
}

// Whether the calls of a list are told, or only made.
#[derive(Clone, Copy, PartialEq, Eq)]
enum Telling {
    Told,
    Made,
}

/// Why a run of calls ends early: a tray's call of this name was refused, or a line could not be written or the clock not
/// be read.
#[derive(Debug, Drop)]
pub enum Stopped {
    Refused(&'static str, Refusal),
    Failed(io::Error),
}

impl From<io::Error> for Stopped {
    fn from(error: io::Error) -> Stopped {
        Stopped::Failed(error)
    }
}

/// A tray on which calls are measured, and the memory that is lent to them. No table is saved.
#[derive(Drop)]
pub struct Bench<'m, 's> {
    tray: Tray<'m, 's>,
    work: WorkFor<BUDGET>,
    output: Output<BUDGET, 0>,
    setting: Setting,
}

impl<'m, 's> Bench<'m, 's> {
    pub fn over(tables: &'m mut [u16], spare: &'s mut [u16], setting: Setting) -> Bench<'m, 's> {
        Bench {
            tray: Tray::over(tables, spare),
            work: WorkFor::new(),
            output: Output::new(),
            setting,
        }
    }

    /// Opens the tray for the multiples, makes their calls, and judges after each part.
    pub fn measure_multiples(&mut self, rt: &(impl Print + Clock)) -> Result<(), Stopped> {
        self.open()?;
        for calls in GROWTH {
            self.make(rt, calls, Telling::Told)?;
            self.make(rt, &JUDGED, Telling::Told)?;
        }
        Ok(())
    }

    /// Opens the tray for the chain, makes its calls, and tells and judges some of them.
    pub fn measure_chain(&mut self, rt: &(impl Print + Clock)) -> Result<(), Stopped> {
        self.open()?;
        self.make(rt, &chain::NEXT, Telling::Told)?;
        for k in 1..=chain::LENGTHENED {
            if k % chain::TOLD_EACH == 0 {
                self.make(rt, &chain::TWO_FURTHER, Telling::Told)?;
                self.make(rt, &JUDGED, Telling::Told)?;
            } else {
                self.make(rt, &chain::TWO_FURTHER, Telling::Made)?;
            }
        }
        self.make(rt, &chain::OR_WITHIN, Telling::Told)?;
        self.make(rt, &JUDGED, Telling::Told)
    }

    fn open(&mut self) -> Result<(), Stopped> {
        self.tray
            .open(self.setting.sets, BUDGET, DEPTH)
            .map_err(|why| Stopped::Refused("open", why))
    }

    // Makes the calls one by one.
    fn make(
        &mut self,
        rt: &(impl Print + Clock),
        calls: &[Call],
        telling: Telling,
    ) -> Result<(), Stopped> {
        let Bench {
            tray,
            work,
            output,
            setting,
        } = self;
        for call in calls {
            let start = Instant::now(rt)?;
            let reply = make(&Standard, tray, work, output, *call);
            let time = start.elapsed(rt)?;
            if let Reply::Refused(why) = reply {
                return Err(Stopped::Refused(call.name(), why));
            }
            if telling == Telling::Told {
                setting.tell_counts(rt, call.name(), reply)?;
                setting.tell_time(rt, time)?;
            }
        }
        Ok(())
    }
}

impl Setting {
    // A call and the counts in its reply, without an end of the line. The lists have no calls that are replied otherwise.
    fn tell_counts(self, rt: &impl Print, name: &str, reply: Reply) -> io::Result<()> {
        let sets = self.sets;
        match reply {
            Reply::Built { met, kept } => print!(rt;
                "{name:<6} {sets} sets {met:>4} met {kept:>4} states"
            ),
            Reply::Judged(judgement) => print!(rt;
                "{name:<6} {sets} sets          {:>4} states",
                judgement.states
            ),
            Reply::Refused(_) | Reply::Dropped | Reply::Saved(_) => print!(rt;
                "{name:<6} {sets} sets"
            ),
        }
    }

    // Ends a line, with the time in milliseconds where it is asked for.
    fn tell_time(self, rt: &impl Print, time: Duration) -> io::Result<()> {
        if !self.timed {
            return println!(rt; "");
        }
        let micros = time.as_micros();
        println!(rt; " {:>6}.{:03} ms", micros / 1000, micros % 1000)
    }
}

/// Ends a run of calls: a call that was refused is told, and what the system failed to do is an error.
pub fn tell_end(rt: &impl Print, end: Result<(), Stopped>) -> io::Result<()> {
    match end {
        Err(Stopped::Refused(name, why)) => println!(rt; "{name}: refused, check {}", why.number()),
        Err(Stopped::Failed(error)) => Err(error),
        Ok(()) => Ok(()),
    }
}
