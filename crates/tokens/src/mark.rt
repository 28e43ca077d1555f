//! The six marks.
ghost use Rattle.std.specs.Prelude.{◌≡◌};
ghost use Rattle.tokens.specs.Marks.{mark_of};

/// The kind of formula that begins with a mark.
#[derive(Clone, Copy, PartialEq, Eq, Debug)]
pub enum Mark {
    Not,
    Both,
    Either,
    Implies,
    Some,
    Every,
}

impl Mark {
    /// The mark that is written with this character, if there is one.
    pub fn of(written: char) -> Option<Mark>
        ensures { result ≡ mark_of written }
    {
        match written {
            '~' => Some(Mark::Not),
            '&' => Some(Mark::Both),
            '|' => Some(Mark::Either),
            '>' => Some(Mark::Implies),
            '?' => Some(Mark::Some),
            '!' => Some(Mark::Every),
            _ => None,
        }
    }
}
