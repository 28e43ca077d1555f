//! The steps that have been planned, and what must be known of the variables so far.
ghost use Rattle.std.specs.Prelude.{◌≡◌, ◌+◌, ◌<◌, ◌≤◌, List, [], ◌∷◌, ◌++◌, take, length, map, All, not, filter};
ghost use Rattle.grammar.specs.Steps.{call_of, hiding, place as place_call};
ghost use Rattle.grammar.specs.Claims.{among};
ghost use Rattle.grammar.specs.Written.{Notes, Adds, Writes, between, joined_by, quantified};

use crate::limits::{MOST_OPEN, MOST_SETS};
use crate::source::{Connective, Quantifier};
use crate::step::{Build, Spot, Step};
use books::Predicate;

/// The steps so far, at the front of lent memory; the letters that are bound around what is read; and for each set
/// where its letter first stood free as a position.
#[derive(Drop)]
pub(crate) struct Plan<'s> {
    pub(crate) steps: &'s mut [Step],
    pub(crate) used: usize,
    pub(crate) bound: [u8; MOST_OPEN],
    pub(crate) free: [Option<u16>; MOST_SETS],
}

impl Plan<'_> {
    // One step more.
    pub(crate) fn push(&mut self, place: u16, build: Build)
        requires { self.old.used < length self.old.steps.now }
        ensures writes { Writes self.old self.new ((place, call_of build) ∷ []) }
        ensures owner { self.new.steps.ghost_name ≡ self.old.steps.ghost_name }
    {
        self.steps[self.used] = Step { place, build };
        self.used += 1;
    }

    // The steps that give a position's set exactly one member.
    pub(crate) fn alone(&mut self, place: u16, set: u8)
        requires { self.old.used + 2 ≤ length self.old.steps.now }
        ensures writes { Writes self.old self.new (Rattle.grammar.specs.Steps.alone place set) }
        ensures owner { self.new.steps.ghost_name ≡ self.old.steps.ghost_name }
    {
        self.push(place, Build::Single(set));
        self.push(place, Build::Both);
    }

    // The steps that hide a variable's set.
    fn hide(&mut self, place: u16, variable: Spot)
        requires small { variable.set < MOST_SETS }
        requires room { self.old.used + 3 ≤ length self.old.steps.now }
        ensures writes { Writes self.old self.new (hiding place variable) }
        ensures owner { self.new.steps.ghost_name ≡ self.old.steps.ghost_name }
    {
        let set = variable.set as u8;
        if variable.letter.is_ascii_lowercase() {
            self.alone(place, set);
        }
        self.push(place, Build::Hide(set));
    }

    // The steps of a quantifier, behind those of its part.
    pub(crate) fn quantify(&mut self, place: u16, quantifier: Quantifier, variable: Spot)
        requires small { variable.set < MOST_SETS }
        requires room { self.old.used + 5 ≤ length self.old.steps.now }
        ensures writes { Writes self.old self.new (quantified place quantifier variable) }
        ensures owner { self.new.steps.ghost_name ≡ self.old.steps.ghost_name }
    {
        match quantifier {
            Quantifier::Some => self.hide(place, variable),
            Quantifier::Every => {
                self.push(place, Build::Negate);
                self.hide(place, variable);
                self.push(place, Build::Negate);
            }
        }
    }

    // The step that an implication has between its parts.
    pub(crate) fn begin_right(&mut self, place: u16, connective: Connective)
        requires { self.old.used < length self.old.steps.now }
        ensures writes { Writes self.old self.new (between place connective) }
        ensures owner { self.new.steps.ghost_name ≡ self.old.steps.ghost_name }
    {
        if let Connective::Implies = connective {
            self.push(place, Build::Negate);
        }
    }

    // The step that joins two parts.
    pub(crate) fn join(&mut self, place: u16, connective: Connective)
        requires { self.old.used < length self.old.steps.now }
        ensures writes { Writes self.old self.new (joined_by place connective) }
        ensures owner { self.new.steps.ghost_name ≡ self.old.steps.ghost_name }
    {
        let build = match connective {
            Connective::Both => Build::Both,
            Connective::Either | Connective::Implies => Build::Either,
        };
        self.push(place, build);
    }

    // Binds a letter inside of those that are bound.
    pub(crate) fn bind(&mut self, depth: usize, letter: u8)
        requires { depth < MOST_OPEN }
        ensures deep { depth < length self.old.bound }
        ensures bound { take (depth + 1) self.new.bound ≡ take depth self.old.bound ++ letter ∷ [] }
        ensures same { (self.new.used ≡ self.old.used) × (self.new.steps ≡ self.old.steps) × (self.new.free ≡ self.old.free) }
    {
        self.bound[depth] = letter;
    }

    // Notes the place of a variable, where so many letters are bound, if it is the first of a free position.
    fn note(&mut self, spot: Spot, depth: usize)
        requires small { spot.set < MOST_SETS }
        requires deep { depth ≤ MOST_OPEN }
        ensures notes { (spots : List Spot) → Notes self.old.free spots → Notes self.new.free (spots ++ filter (λ x. not (among x.letter (take depth self.old.bound))) (spot ∷ [])) }
        ensures same { (self.new.used ≡ self.old.used) × (self.new.steps ≡ self.old.steps) × (self.new.bound ≡ self.old.bound) }
    {
        let set = usize::from(spot.set);
        let free = !self.bound[..depth].contains(&spot.letter);
        if free && spot.letter.is_ascii_lowercase() && self.free[set].is_none() {
            self.free[set] = Some(spot.place);
        }
    }

    // The step of a predicate on its variables.
    pub(crate) fn place(&mut self, place: u16, predicate: Predicate, spots: &[Spot], depth: usize)
        requires few { length spots.now ≤ 4 }
        requires small { All (λ x. x.set < MOST_SETS) spots.now }
        requires deep { depth ≤ MOST_OPEN }
        requires room { self.old.used < length self.old.steps.now }
        ensures writes { Adds self.old self.new ((place, place_call predicate (map (λ x. x.set) spots.now)) ∷ []) (filter (λ x. not (among x.letter (take depth self.old.bound))) spots.now) }
        ensures owner { self.new.steps.ghost_name ≡ self.old.steps.ghost_name }
    {
        let mut sets = [0; 4];
        for (i, spot) in spots.iter().enumerate() {
            sets[i] = spot.set as u8;
            self.note(*spot, depth);
        }
        self.push(
            place,
            Build::Place {
                predicate,
                sets,
                places: spots.len() as u8,
            },
        );
    }
}
