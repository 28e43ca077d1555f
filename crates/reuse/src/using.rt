//! What a loaded table is good for: claims that use it beside the standard book.
use crate::told::{Entry, tell_judgement};
use books::{Book, Bound, NamedBook, Predicate, Standard};
use calls::{Call, Output, Reply, WorkFor, make};
use loading::Loaded;
use std::io;
use tray::{Refusal, Tray};

/// The name that the table is loaded under.
pub const NAME: &[u8] = b"tri";

// How many sets the claims are over, and how many places they want of the table.
const SETS: u8 = 3;

const PLACES: u8 = 2;

// How many states one call may meet, and how many tables the tray holds at most.
const BUDGET: usize = 64;

const DEPTH: usize = 4;

// A slot has a row for each state of the budget: a number for each column, and a mark.
const SLOT: usize = BUDGET * ((1 << SETS) + 1);

const TABLES: usize = DEPTH * SLOT;

const SPARE: usize = 2 * SLOT;

// The standard book, and behind it the loaded one.
type Shelf<'b> = Bound<'b, 'b, Standard, Loaded>;

// A tray for predicates of the shelf, and the memory that is lent to its calls.
#[derive(Drop)]
struct Workbench<'b, 'm, 's> {
    shelf: &'b Shelf<'b>,
    tray: Tray<'m, 's>,
    work: WorkFor<BUDGET>,
    output: Output<BUDGET, 0>,
}

impl<'b, 'm, 's> Workbench<'b, 'm, 's> {
    fn over(shelf: &'b Shelf<'b>, tables: &'m mut [u16], spare: &'s mut [u16]) -> Self {
        Workbench {
            shelf,
            tray: Tray::over(tables, spare),
            work: WorkFor::new(),
            output: Output::new(),
        }
    }

    // Opens the tray, which is empty then.
    fn open(&mut self) -> Result<(), Refusal> {
        self.tray.open(usize::from(SETS), BUDGET, DEPTH)
    }

    fn make(&mut self, call: Call) -> Reply {
        let Workbench {
            shelf,
            tray,
            work,
            output,
        } = self;
        make(*shelf, tray, work, output, call)
    }
}

/// Prints what comes of claims that use the loaded table.
pub fn tell_uses(rt: &impl Print, loaded: &Loaded) -> io::Result<()> {
    let shelf = Bound::of(&Standard, loaded);
    let Some(tri) = shelf.find(NAME) else {
        return println!(rt; "The bound book has no predicate of this name.");
    };
    let places = shelf.places(tri);
    println!(rt;
        "The table is loaded as tri: places {places}, states {}",
        shelf.states(tri)
    )?;
    let mut tables = [0u16; TABLES];
    let mut spare = [0u16; SPARE];
    let mut bench = Workbench::over(&shelf, &mut tables, &mut spare);
    if places == PLACES {
        return tell_claims(rt, &mut bench, tri);
    }
    println!(rt; "No claim is made: the claims place tri on {PLACES} sets.")
}

// A claim for a table that says that the second set counts three times as much as the first, and a claim that holds of
// the number 0 alone.
fn tell_claims(rt: &impl Print, bench: &mut Workbench, tri: Predicate) -> io::Result<()> {
    println!(rt;
        "A claim: if tri holds of sets 0 and 1, and set 2 is twice set 0, then set 2 + set 0 = set 1"
    )?;
    let adds_up = [
        Call::Place(tri, &[0, 1]),
        Call::Place(Standard::SUM, &[0, 0, 2]),
        Call::Both,
        Call::Negate,
        Call::Place(Standard::SUM, &[2, 0, 1]),
        Call::Either,
    ];
    tell_claim(rt, bench, &adds_up)?;
    println!(rt; "A claim: tri holds of sets 0 and 1, and set 1 is twice set 0")?;
    let is_double = [
        Call::Place(tri, &[0, 1]),
        Call::Place(Standard::SUM, &[0, 0, 1]),
        Call::Both,
    ];
    tell_claim(rt, bench, &is_double)
}

// The calls that build a claim, and the verdict on it if all of them were accepted.
fn tell_claim(rt: &impl Print, bench: &mut Workbench, calls: &[Call]) -> io::Result<()> {
    if !tell_calls(rt, bench, calls)? {
        return println!(rt; "A call was refused, and so the claim is not judged.");
    }
    let call = Call::Judge;
    match bench.make(call) {
        Reply::Judged(judgement) => tell_judgement(rt, SETS, judgement, &bench.output),
        reply => println!(rt; "  {}", Entry { call, reply }),
    }
}

// Makes calls on the tray opened anew, and logs them up to the first that builds no table. Answers whether all of them built
// one.
fn tell_calls(rt: &impl Print, bench: &mut Workbench, calls: &[Call]) -> io::Result<bool> {
    if let Err(why) = bench.open() {
        println!(rt; "  open: refused, check {}: {why}", why.number())?;
        return Ok(false);
    }
    for call in calls {
        let call = *call;
        let reply = bench.make(call);
        println!(rt; "  {}", Entry { call, reply })?;
        if !matches!(reply, Reply::Built { .. }) {
            return Ok(false);
        }
    }
    Ok(true)
}
