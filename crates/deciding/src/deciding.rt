//! Deciding a claim on a tray of its own.
ghost use Rattle.std.specs.Prelude.{◌≤◌};
ghost use Rattle.tray.specs.Memory.{SameMemory};
ghost use Rattle.deciding.specs.Answers.{Answers, Prints, JudgesText, JudgesOn, JudgesTop};

use crate::answer::{Answer, Judged, MOST_STATES};
use crate::printing::{Lines, lines_of};
use crate::question::{Question, read_question};
use books::NamedBook;
use calls::{Settings, WorkFor};
use grammar::{Build, Step};
use reading::{Fault, read};
use tray::Tray;

// Memory for 4 sets, a budget of 64 states and a depth of 8 tables: ten slots of 64 rows of 17 numbers.
const NUMBERS: usize = 10_880;

// A record of each kind for each state, and eight links.
const STATES: usize = 64;

// Steps for the longest text, of 1,024 bytes.
const STEPS: usize = 3_088;

// The verdict on the top table, of which there is one.
fn judge_top(tray: &Tray) -> Result<Judged, Fault>
    requires { 1 ≤ tray.now.control.count }
    ensures { JudgesTop tray.now.control tray.now.tables.now result }
{
    let mut witness = [0; MOST_STATES];
    let mut counterexample = [0; MOST_STATES];
    match tray.judge(&mut witness, &mut counterexample) {
        Ok(judgement) => Ok(Judged {
            judgement,
            witness,
            counterexample,
        }),
        Err(why) => Err(Fault::from(why)),
    }
}

// Reads the text onto the tray, and judges it.
fn judge_on<B: NamedBook>(book: &B, text: &[u8], tray: &mut Tray) -> Result<Judged, Fault>
    ensures { JudgesOn (B.NamedBook.numbered book.now) (B.Book.size book.now) (B.Book.automaton book.now) (B.Book.holds book.now) text.now tray.old.control result }
{
    let mut work: WorkFor<STATES> = WorkFor::new();
    let mut steps = [Step {
        place: 0,
        build: Build::Negate,
    }; STEPS];
    read(book, text, tray, &mut work, &mut steps)?;
    judge_top(tray)
}

// Opens a tray with these settings, and judges the text on it.
fn judge_text<B: NamedBook>(book: &B, settings: Settings, text: &[u8]) -> Result<Judged, Fault>
    ensures { JudgesText (B.NamedBook.numbered book.now) (B.Book.size book.now) (B.Book.automaton book.now) (B.Book.holds book.now) settings text.now result }
{
    let Settings {
        sets,
        budget,
        depth,
    } = settings;
    let mut numbers = [0u16; NUMBERS];
    let mut tray = Tray::within(&mut numbers, sets, budget, depth);
    if let Err(why) = tray.open(sets, budget, depth) {
        return Err(Fault::from(why));
    }
    judge_on(book, text, &mut tray)
}

/// Answers a question: 16 where its first line is not that of the names, 17 where the second is not one of three values,
/// and then what opening a tray with these settings, reading the text and judging it come to.
pub fn answer_to<B: NamedBook>(book: &B, input: &[u8]) -> Answer
    ensures { Answers (B.NamedBook.numbered book.now) (B.Book.size book.now) (B.Book.automaton book.now) (B.Book.holds book.now) input.now result }
{
    match read_question(input) {
        Err(why) => Answer::Refused {
            number: why.number(),
            layer: why.layer(),
            place: 0,
        },
        Ok(Question { settings, text }) => match judge_text(book, settings, text) {
            Ok(judged) => Answer::Judged(judged),
            Err(Fault { reason, place }) => Answer::Refused {
                number: reason.number(),
                layer: reason.layer(),
                place,
            },
        },
    }
}

/// The two lines that answer a question.
pub fn decide<B: NamedBook>(book: &B, input: &[u8]) -> Lines
    ensures { Prints (B.NamedBook.numbered book.now) (B.Book.size book.now) (B.Book.automaton book.now) (B.Book.holds book.now) input.now result.items }
{
    lines_of(&answer_to(book, input))
}
