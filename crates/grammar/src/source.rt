//! The items of a text, and what may stand where.
ghost use Rattle.std.specs.Prelude.{◌≡◌, ◌≤◌, length};
ghost use Rattle.tokens.specs.declared.item.Sense.TheVariants.{Mark as MarkSense};
ghost use Rattle.grammar.specs.Sources.{sense_of_opening, FindsItem, FindsVariable, FindsVariables, Opens, Ends};

use crate::flaw::{Flaw, Flawed};
use crate::limits::MOST_OPEN;
use crate::step::Spot;
use books::Predicate;
use tokens::{Item, Mark, Sense};

/// A formula of two parts.
#[derive(Clone, Copy)]
pub(crate) enum Connective {
    Both,
    Either,
    Implies,
}

/// A formula that binds a variable.
#[derive(Clone, Copy)]
pub(crate) enum Quantifier {
    Some,
    Every,
}

/// How a formula begins.
#[derive(Clone, Copy)]
pub(crate) enum Opening {
    Denial,
    Connective(Connective),
    Quantifier(Quantifier),
    Atom { number: Predicate, places: u8 },
}

/// The beginning of a formula, with the place of its mark or name.
#[derive(Clone, Copy)]
pub(crate) struct Opened {
    pub(crate) place: u16,
    pub(crate) opening: Opening,
}

/// The items of a text of so many bytes, to be read over so many sets.
#[derive(Clone, Copy)]
pub(crate) struct Source<'i> {
    pub(crate) items: &'i [Item],
    pub(crate) end: usize,
    pub(crate) sets: u8,
}

// The formula that begins with a mark.
fn opening_of(mark: Mark) -> Opening
    ensures { sense_of_opening result ≡ MarkSense mark }
{
    match mark {
        Mark::Not => Opening::Denial,
        Mark::Both => Opening::Connective(Connective::Both),
        Mark::Either => Opening::Connective(Connective::Either),
        Mark::Implies => Opening::Connective(Connective::Implies),
        Mark::Some => Opening::Quantifier(Quantifier::Some),
        Mark::Every => Opening::Quantifier(Quantifier::Every),
    }
}

// A flaw at a place of the text.
fn flawed(flaw: Flaw, place: u16) -> Flawed
    ensures { (result.flaw ≡ flaw) × (result.place ≡ place) }
{
    Flawed {
        flaw,
        place: usize::from(place),
    }
}

impl Source<'_> {
    // The item at a place of the list.
    fn item(&self, at: usize) -> Result<Item, Flawed>
        ensures { FindsItem self.now at result }
    {
        match self.items.get(at) {
            Some(item) => Ok(*item),
            None => Err(Flawed {
                flaw: Flaw::Unfinished,
                place: self.end,
            }),
        }
    }

    // The variable that is due here.
    pub(crate) fn variable(&self, at: usize) -> Result<Spot, Flawed>
        ensures { FindsVariable self.now at result }
    {
        let item = self.item(at)?;
        match item.sense {
            Sense::Variable { letter, set } => {
                if set >= u16::from(self.sets) {
                    return Err(flawed(Flaw::TooManyVariables, item.place));
                }
                Ok(Spot {
                    place: item.place,
                    letter,
                    set,
                })
            }
            Sense::Wrong => Err(flawed(Flaw::NoToken, item.place)),
            _ => Err(flawed(Flaw::NotDue, item.place)),
        }
    }

    // The variables that are due here, as many as a predicate has places, at the front of the answer.
    pub(crate) fn variables(&self, at: usize, places: u8) -> Result<[Spot; 4], Flawed>
        requires few { places ≤ 4 }
        requires within { at ≤ length self.now.items.now }
        ensures { FindsVariables self.now at places result }
    {
        let mut spots = [Spot {
            place: 0,
            letter: 0,
            set: 0,
        }; 4];
        for i in 0..usize::from(places) {
            spots[i] = self.variable(at + i)?;
        }
        Ok(spots)
    }

    // The beginning of the formula that is due here, where `left` formulas more may be open at once.
    pub(crate) fn opening(&self, at: usize, left: u8) -> Result<Opened, Flawed>
        requires { left ≤ MOST_OPEN }
        ensures { Opens self.now at left result }
    {
        let item = self.item(at)?;
        let opening = match item.sense {
            Sense::Wrong => return Err(flawed(Flaw::NoToken, item.place)),
            Sense::Variable { .. } => return Err(flawed(Flaw::NotDue, item.place)),
            _ if left == 0 => return Err(flawed(Flaw::TooDeep, item.place)),
            Sense::Unknown => return Err(flawed(Flaw::UnknownName, item.place)),
            Sense::Mark(mark) => opening_of(mark),
            Sense::Predicate { number, places } => Opening::Atom { number, places },
        };
        Ok(Opened {
            place: item.place,
            opening,
        })
    }

    // Nothing is due here any more.
    pub(crate) fn finish(&self, at: usize) -> Result<(), Flawed>
        ensures { Ends self.now at result }
    {
        match self.items.get(at) {
            None => Ok(()),
            Some(item) => match item.sense {
                Sense::Wrong => Err(flawed(Flaw::NoToken, item.place)),
                _ => Err(flawed(Flaw::NotDue, item.place)),
            },
        }
    }
}
