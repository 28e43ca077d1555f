//! The letters of a text, and how each of them stands in it.
ghost use Rattle.std.specs.Prelude.{◌≡◌};
ghost use Rattle.std.specs.Char.{is_ascii_lowercase};

use books::Standard;
use std::fmt;
use tokens::{Item, LONGEST, Mark, Sense, list_items};

// A tray has so many sets at most.
const MOST_SETS: usize = 8;

// A mark stands inside so many others at most.
const MOST_OPEN: usize = 33;

/// A letter, and whether it stands free somewhere and is bound somewhere.
#[derive(Clone, Copy, PartialEq, Eq, Debug)]
pub struct Letter {
    pub letter: u8,
    pub free: bool,
    pub bound: bool,
}

impl Letter {
    /// A small letter stands for a position.
    pub fn is_position(&self) -> bool
        ensures { result ≡ is_ascii_lowercase self.now.letter }
    {
        self.letter.is_ascii_lowercase()
    }

    fn kind(&self) -> &'static str {
        if self.is_position() {
            ", a position"
        } else {
            ""
        }
    }

    fn standing(&self) -> &'static str {
        match (self.free, self.bound) {
            (true, true) => "free and bound",
            (false, true) => "bound",
            _ => "free",
        }
    }
}

impl fmt::Display for Letter {
    fn fmt<W: fmt::Write>(&self, f: &mut fmt::Formatter<W>) -> fmt::Result {
        f.write_char(char::from(self.letter))
    }
}

/// A letter beside its set.
#[derive(Clone, Copy)]
pub struct Listed {
    pub set: usize,
    pub letter: Letter,
}

impl fmt::Display for Listed {
    fn fmt<W: fmt::Write>(&self, f: &mut fmt::Formatter<W>) -> fmt::Result {
        let Listed { set, letter } = *self;
        write!(
            f,
            "{letter}  set {set}  {}{}",
            letter.standing(),
            letter.kind()
        )
    }
}

/// The letters of a text, each at the number of its set.
pub type Letters = [Option<Letter>; MOST_SETS];

// A mark whose formula is not complete: how many formulas are due in it, and the letter that it binds.
#[derive(Clone, Copy)]
struct Open {
    due: u8,
    binds: Option<u8>,
}

// Where a walk over a formula stands.
#[derive(Drop)]
struct Walk {
    letters: Letters,
    // The marks around this place, outermost first.
    around: [Open; MOST_OPEN],
    depth: usize,
    // A quantifier's letter is due.
    binding: bool,
    // So many letters of a predicate are due.
    due: u8,
}

impl Walk {
    fn new() -> Walk {
        Walk {
            letters: [None; MOST_SETS],
            around: [Open {
                due: 0,
                binds: None,
            }; MOST_OPEN],
            depth: 0,
            binding: false,
            due: 0,
        }
    }

    // A mark begins a formula of so many parts.
    fn open(&mut self, due: u8, binds: Option<u8>) {
        if let Some(inner) = self.around.get_mut(self.depth) {
            *inner = Open { due, binds };
            self.depth += 1;
        }
    }

    // A formula is complete, and with it those around it in which no other is due.
    fn complete(&mut self) {
        for at in (0..self.depth).rev() {
            let Some(inner) = self.around.get_mut(at) else {
                return;
            };
            inner.due = inner.due.saturating_sub(1);
            if inner.due > 0 {
                return;
            }
            self.depth = at;
        }
    }

    fn is_bound(&self, letter: u8) -> bool {
        self.around
            .iter()
            .take(self.depth)
            .any(|mark| mark.binds == Some(letter))
    }

    // Notes how a letter stands here.
    fn note(&mut self, letter: u8, set: u16, bound: bool) {
        if let Some(place) = self.letters.get_mut(usize::from(set)) {
            let before = place.unwrap_or(Letter {
                letter,
                free: false,
                bound: false,
            });
            *place = Some(Letter {
                letter,
                free: before.free || !bound,
                bound: before.bound || bound,
            });
        }
    }

    fn pass_letter(&mut self, letter: u8, set: u16) {
        if self.binding {
            self.binding = false;
            self.note(letter, set, true);
            self.open(1, Some(letter));
            return;
        }
        let bound = self.is_bound(letter);
        self.note(letter, set, bound);
        self.due = self.due.saturating_sub(1);
        if self.due == 0 {
            self.complete();
        }
    }

    fn pass(&mut self, item: Item) {
        match item.sense {
            Sense::Mark(Mark::Not) => self.open(1, None),
            Sense::Mark(Mark::Both | Mark::Either | Mark::Implies) => self.open(2, None),
            Sense::Mark(Mark::Some | Mark::Every) => self.binding = true,
            Sense::Predicate { places, .. } => self.due = places,
            Sense::Variable { letter, set } => self.pass_letter(letter, set),
            Sense::Unknown | Sense::Wrong => {}
        }
    }
}

/// The letters of a text that is one formula.
pub fn letters_of(text: &[u8]) -> Letters {
    let mut items = [Item {
        place: 0,
        sense: Sense::Wrong,
    }; LONGEST];
    let count = list_items(&Standard, text, &mut items).unwrap_or(0);
    let mut walk = Walk::new();
    for item in items.iter().take(count) {
        walk.pass(*item);
    }
    walk.letters
}

#[cfg(test)]
mod tests {
    use super::*;
    use std::alloc::AllocError;

    fn letter(letter: u8, free: bool, bound: bool) -> Option<Letter> {
        Some(Letter {
            letter,
            free,
            bound,
        })
    }

    // How the first three letters of a text stand.
    fn first(text: &[u8]) -> [Option<Letter>; 3] {
        let [a, b, c, ..] = letters_of(text);
        [a, b, c]
    }

    #[test]
    fn standing(rt: HostRuntime) {
        let free = letter(b'A', true, false);
        assert!(rt; first(b"sub A B") == [free, letter(b'B', true, false), None]);
        let bound = letter(b'A', false, true);
        assert!(rt; first(b"?A one A") == [bound, None, None]);
        // The quantifier ends before the second part of the conjunction, and lasts over both parts of the inner one.
        let both = letter(b'x', true, true);
        let inner = letter(b'B', true, false);
        assert!(rt; first(b"& ?x & one x one B one x") == [both, inner, None]);
        // A large letter and the small one are two.
        let small = letter(b'a', true, false);
        assert!(rt; first(b"!A sub A a") == [bound, small, None]);
    }

    #[test]
    fn shown(rt: HostRuntime) -> Result<(), AllocError> {
        for (letter, wanted) in [
            (letter(b'A', true, false), "A  set 3  free"),
            (letter(b'x', false, true), "x  set 3  bound, a position"),
        ] {
            if let Some(letter) = letter {
                let line = format!(in rt.alloc(); "{}", Listed { set: 3, letter })?;
                assert_eq!(rt; line.as_str(), wanted);
            }
        }
        Ok(())
    }
}
