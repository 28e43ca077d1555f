//! The round trip: a saved table is loaded, placed and saved again.
use crate::told::Reason;
use crate::using::NAME;
use calls::{Output, Reply, WorkFor};
use loading::{Loaded, MOST_CELLS};
use returning::{Unreturned, save_again};
use std::io;
use tray::{Refusal, Tray};

// How many states the table may have.
const BUDGET: usize = 64;

// A slot for tables over four sets, which is the most places that a predicate has.
const SLOT: usize = BUDGET * ((1 << 4) + 1);

// The longest text: the line of names over four sets, and for each state a line of eighteen numbers of two digits.
const BYTES: usize = 68 + BUDGET * 54;

/// Prints whether a text that was loaded comes back as the same bytes.
pub fn tell_return(rt: &impl Print, text: &[u8], place: &mut Loaded) -> io::Result<()> {
    let mut output: Output<BUDGET, BYTES> = Output::new();
    match returned(text, place, &mut output) {
        Ok(Reply::Saved(bytes)) if &output.text[..bytes.min(BYTES)] == text => {
            println!(rt; "Loaded again, placed and saved, the table has the same {bytes} bytes.")
        }
        Ok(Reply::Saved(bytes)) => println!(rt;
            "Loaded again, placed and saved, the table has {bytes} bytes, which differ from the {} that were loaded.",
            text.len()
        ),
        // Place was refused, so that there is no top: all else is as it must be for place.
        Ok(Reply::Refused(Refusal::TooFewTables)) => {
            println!(rt; "The table is not saved again: it has more than {BUDGET} states.")
        }
        Ok(Reply::Refused(why)) | Err(Unreturned::NotOpened(why)) => {
            println!(rt;
                "The table is not saved again: check {}: {why}",
                why.number()
            )
        }
        Err(Unreturned::NotLoaded(fault)) => {
            println!(rt; "The table is not loaded again: {}", Reason(fault))
        }
        Ok(Reply::Built { .. } | Reply::Dropped | Reply::Judged(_)) => {
            println!(rt; "The table is not saved again.")
        }
    }
}

fn returned(
    text: &[u8],
    place: &mut Loaded,
    output: &mut Output<BUDGET, BYTES>,
) -> Result<Reply, Unreturned> {
    let mut memory = [0u16; MOST_CELLS];
    let mut tables = [0u16; SLOT];
    let mut spare = [0u16; 2 * SLOT];
    let mut tray = Tray::over(&mut tables, &mut spare);
    let mut work: WorkFor<BUDGET> = WorkFor::new();
    save_again(
        text,
        NAME,
        &mut memory,
        place,
        &mut tray,
        BUDGET,
        &mut work,
        output,
    )
}
