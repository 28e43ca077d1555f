//! Tokens, and cutting a text into them.
ghost use Rattle.std.specs.Prelude.{◌≡◌, ℕ, ◌+◌, ◌-◌, ◌<◌, ◌≤◌, length, take, drop, ◌∷◌, true, false, slice_index};
ghost use Rattle.tokens.specs.Pieces.{blank, pieces};
ghost use Rattle.tokens.specs.Senses.{is_name};
ghost use Rattle.tokens.specs.Tokens.{place_of, bytes_of, IsRead, StandsAt, IsNext};

use crate::mark::Mark;

/// A token: a part of a text, with its place, the byte where it begins.
#[derive(Clone, Copy, PartialEq, Eq, Debug)]
pub enum Token<'t> {
    /// One of the six marks.
    Mark {
        place: usize,
        byte: &'t u8,
        mark: Mark,
    },
    /// Three lower-case letters.
    Name {
        place: usize,
        name: &'t [u8],
    },
    /// One letter.
    Variable {
        place: usize,
        letter: &'t u8,
    },
}

/// A part of a text that is no token: a byte that is no letter, mark or blank, or letters that are neither one nor a name.
#[derive(Clone, Copy, PartialEq, Eq, Debug)]
pub struct NoToken<'t> {
    pub place: usize,
    pub bytes: &'t [u8],
}

/// What stands next in a text, and where the text goes on behind it.
#[derive(Clone, Copy, PartialEq, Eq, Debug)]
pub struct Part<'t> {
    pub token: Result<Token<'t>, NoToken<'t>>,
    pub end: usize,
}

// The place of a part.
pub(crate) fn place_of(token: Result<Token<'_>, NoToken<'_>>) -> usize
    ensures { result ≡ place_of token.entry }
{
    match token {
        Ok(Token::Mark { place, .. } | Token::Name { place, .. } | Token::Variable { place, .. }) =>
            place,
        Err(wrong) => wrong.place,
    }
}

// Whether a byte only separates tokens.
fn is_blank(byte: u8) -> bool
    ensures { result ≡ blank byte }
{
    byte == b' ' || byte == b'\n'
}

// Where the next token begins, at this byte or behind it; no byte of the text, if none is left.
fn token_begin(text: &[u8], from: usize) -> usize
    ensures behind { from ≤ result }
    ensures blanks { (k : ℕ) → from ≤ k → k < result → blank (slice_index text.now k) ≡ true }
    ensures solid { result < length text.now → blank (slice_index text.now result) ≡ false }
    ensures same { pieces from (drop from text.now) ≡ pieces result (drop result text.now) }
{
    let mut at = from;
    while at < text.len() && is_blank(text[at]) {
        at += 1;
    }
    at
}

// Where the token that begins at this byte ends: behind a run of letters, or behind the one byte.
fn token_end(text: &[u8], at: usize) -> usize
    requires there { at < length text.now }
    requires solid { blank (slice_index text.now at) ≡ false }
    ensures within { (at < result) × (result ≤ length text.now) }
    ensures stands { StandsAt text.now at (take (result - at) (drop at text.now)) }
    ensures piece { pieces at (drop at text.now) ≡ (at, take (result - at) (drop at text.now)) ∷ pieces result (drop result text.now) }
{
    let mut end = at + 1;
    if !text[at].is_ascii_alphabetic() {
        return end;
    }
    while end < text.len() && text[end].is_ascii_alphabetic() {
        end += 1;
    }
    end
}

// Whether a part of a text is three lower-case letters.
fn is_name(bytes: &[u8]) -> bool
    ensures { result ≡ is_name bytes.now }
{
    bytes.len() == 3 && bytes.iter().all(|byte| byte.is_ascii_lowercase())
}

// The token that the bytes at a place are, if they are one.
fn token_of(place: usize, bytes: &[u8]) -> Result<Token<'_>, NoToken<'_>>
    requires some { 0 < length bytes.now }
    requires solid { blank (slice_index bytes.now 0) ≡ false }
    ensures place { place_of result ≡ place }
    ensures bytes { bytes_of result ≡ bytes.now }
    ensures read { IsRead result }
{
    if bytes.len() == 1 {
        let byte = &bytes[0];
        if byte.is_ascii_alphabetic() {
            return Ok(Token::Variable {
                place,
                letter: byte,
            });
        }
        return match Mark::of(char::from(*byte)) {
            Some(mark) => Ok(Token::Mark { place, byte, mark }),
            None => Err(NoToken { place, bytes }),
        };
    }
    if is_name(bytes) {
        return Ok(Token::Name { place, name: bytes });
    }
    Err(NoToken { place, bytes })
}

/// What stands in a text from a place on: the next token, or a part that is none. Answers none where only blanks are
/// left. A text is cut from its beginning, place 0, and on from the end of each part.
pub fn next_token(text: &[u8], from: usize) -> Option<Part<'_>>
    ensures { IsNext text.now from result }
{
    let place = token_begin(text, from);
    if place >= text.len() {
        return None;
    }
    let end = token_end(text, place);
    Some(Part {
        token: token_of(place, &text[place..end]),
        end,
    })
}
