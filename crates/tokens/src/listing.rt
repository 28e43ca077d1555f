//! Listing the items of a text.
ghost use Rattle.std.specs.Prelude.{◌≡◌, ◌+◌, ◌<◌, ◌≤◌, take};
ghost use Rattle.tokens.specs.Senses.{sense_of_number, sense_of, seen_after};
ghost use Rattle.tokens.specs.Tokens.{bytes_of, IsRead};
ghost use Rattle.tokens.specs.Items.{Lists};

use crate::item::{Item, Sense};
use crate::letters::Letters;
use crate::token::{NoToken, Token, next_token, place_of};
use books::NamedBook;

/// The most bytes that a text may have.
pub const LONGEST: usize = 1024;

// What a name is to a book.
fn sense_of_name<B: NamedBook>(book: &B, name: &[u8]) -> Sense
    ensures { result ≡ sense_of_number (B.Book.automaton book.now) (B.NamedBook.numbered book.now name.now) }
{
    match book.find(name) {
        Some(number) => Sense::Predicate {
            number,
            places: book.places(number),
        },
        None => Sense::Unknown,
    }
}

// What a part of a text is to a book, where these letters have appeared before it. A letter joins them.
fn sense<B: NamedBook>(
    book: &B,
    token: Result<Token<'_>, NoToken<'_>>,
    letters: &mut Letters,
) -> Sense
    requires few { letters.old.many < LONGEST }
    requires read { IsRead token }
    ensures sense { result ≡ sense_of (B.NamedBook.numbered book.now) (B.Book.automaton book.now) (take letters.old.many letters.old.seen) (bytes_of token.entry) }
    ensures seen { take letters.new.many letters.new.seen ≡ seen_after (take letters.old.many letters.old.seen) (bytes_of token.entry) }
    ensures few { letters.new.many ≤ letters.old.many + 1 }
{
    match token {
        Ok(Token::Mark { mark, .. }) => Sense::Mark(mark),
        Ok(Token::Name { name, .. }) => sense_of_name(book, name),
        Ok(Token::Variable { letter, .. }) => Sense::Variable {
            letter: *letter,
            set: letters.set_of(*letter),
        },
        Err(_) => Sense::Wrong,
    }
}

/// Lists the pieces of a text in their order, with what each is to the book, at the front of `items`, and answers how
/// many there are. None, and nothing is written, where the text has more than 1,024 bytes, or more than `items` has room
/// for.
pub fn list_items<B: NamedBook>(book: &B, text: &[u8], items: &mut [Item]) -> Option<usize>
    ensures { Lists (B.NamedBook.numbered book.now) (B.Book.automaton book.now) text.now items.old items.new result }
{
    if text.len() > LONGEST || text.len() > items.len() {
        return None;
    }
    let mut letters = Letters {
        seen: [0; LONGEST],
        many: 0,
    };
    let mut count = 0;
    let mut at = 0;
    while let Some(part) = next_token(text, at) {
        items[count] = Item {
            place: place_of(part.token) as u16,
            sense: sense(book, part.token, &mut letters),
        };
        count += 1;
        at = part.end;
    }
    Some(count)
}
