//! The two lines of an answer, in memory that is long enough for every answer.
ghost use Rattle.std.specs.Prelude.{◌≡◌, ◌≤◌, ◌++◌, Some, codes, decimal, length};
ghost use Rattle.deciding.specs.Printed.{verdict_name, word_text, word_at, judged_text, answer_text, Puts};
ghost use Rattle.deciding.specs.declared.answer.Answer.TheVariants.{Refused};

use crate::answer::{Answer, Judged, MOST_STATES};
use arrayvec::ArrayVec;
use judging::Verdict;

// The longest lines are those of a judgement: 31 bytes of names, four of a verdict, twenty of a number of 64 bits, two words
// of 512 columns with three digits each and the commas between them, which are 2,047 bytes, three blanks and a line feed.
const MOST_BYTES: usize = 4_153;

/// The two lines of an answer.
pub type Lines = ArrayVec<u8, MOST_BYTES>;

// Puts bytes behind the others, as many as there is room for.
fn put(lines: &mut Lines, piece: &[u8])
    ensures { Puts (length piece.now) piece.now lines.old.items lines.new.items }
{
    let room = lines.remaining_capacity().min(piece.len());
    let _fits = lines.try_extend_from_slice(&piece[..room]);
}

// Puts a number in decimal.
fn put_number(lines: &mut Lines, number: usize)
    ensures { Puts 20 (decimal number) lines.old.items lines.new.items }
{
    put(lines, itoa::Buffer::new().format(number).as_bytes());
}

// Puts one column of a word in decimal.
fn put_column(lines: &mut Lines, column: u8)
    ensures { Puts 3 (decimal column) lines.old.items lines.new.items }
{
    put(lines, itoa::Buffer::new().format(column).as_bytes());
}

// Puts one column behind the first.
fn put_next(lines: &mut Lines, column: u8)
    ensures { Puts 4 (codes "," ++ decimal column) lines.old.items lines.new.items }
{
    put(lines, b",");
    put_column(lines, column);
}

// Puts the columns of a word, joined by commas; a point for the empty word.
fn put_columns(lines: &mut Lines, columns: &[u8])
    requires { length columns.now ≤ 512 }
    ensures { Puts 2047 (word_text (Some columns.now)) lines.old.items lines.new.items }
{
    let Some((first, rest)) = columns.split_first() else {
        put(lines, b".");
        return;
    };
    put_column(lines, *first);
    for column in rest {
        put_next(lines, *column);
    }
}

// Puts the word of this length at the front of its bytes, or a dash where it is absent.
fn put_word(lines: &mut Lines, bytes: &[u8; MOST_STATES], length: Option<usize>)
    ensures { Puts 2047 (word_text (word_at bytes.now length)) lines.old.items lines.new.items }
{
    match length {
        Some(length) => put_columns(lines, &bytes[..length.min(MOST_STATES)]),
        None => put(lines, b"-"),
    }
}

// Puts the lines of a refusal.
fn put_refusal(lines: &mut Lines, number: u8, layer: u8, place: usize)
    ensures { Puts 4153 (answer_text (Refused number layer place)) lines.old.items lines.new.items }
{
    put(lines, b"refusal layer place\n");
    put_number(lines, usize::from(number));
    put(lines, b" ");
    put_number(lines, usize::from(layer));
    put(lines, b" ");
    put_number(lines, place);
    put(lines, b"\n");
}

fn verdict_name(verdict: Verdict) -> &'static [u8]
    ensures { result.now ≡ verdict_name verdict }
{
    match verdict {
        Verdict::NoSets => b"none",
        Verdict::SomeSets => b"some",
        Verdict::AllSets => b"all",
    }
}

// Puts the lines of a judgement.
fn put_judged(lines: &mut Lines, judged: &Judged)
    ensures { Puts 4153 (judged_text judged.now) lines.old.items lines.new.items }
{
    let judgement = judged.judgement;
    put(lines, b"verdict states witness counter\n");
    put(lines, verdict_name(judgement.verdict));
    put(lines, b" ");
    put_number(lines, judgement.states);
    put(lines, b" ");
    put_word(lines, &judged.witness, judgement.witness);
    put(lines, b" ");
    put_word(lines, &judged.counterexample, judgement.counterexample);
    put(lines, b"\n");
}

/// The two lines of an answer. They always fit.
pub(crate) fn lines_of(answer: &Answer) -> Lines
    ensures { result.items ≡ answer_text answer.now }
{
    let mut lines = Lines::new();
    match answer {
        Answer::Refused {
            number,
            layer,
            place,
        } => put_refusal(&mut lines, *number, *layer, *place),
        Answer::Judged(judged) => put_judged(&mut lines, judged),
    }
    lines
}
