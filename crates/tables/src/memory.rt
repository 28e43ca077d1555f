//! What an exploration is lent, and how far it may go.
ghost use Rattle.std.specs.Prelude.{◌≡◌, ◌^◌, ◌≤◌, length, Decides};
ghost use Rattle.words.specs.Rows.{width};
ghost use Rattle.tables.specs.Room.{Room};

/// How far an exploration goes: over so many sets, at most so many states.
#[derive(Clone, Copy, PartialEq, Eq, Debug)]
pub struct Limits {
    pub sets: u8,
    pub budget: usize,
}

impl Limits {
    // How many columns there are over the sets.
    pub(crate) fn columns(self) -> usize
        requires { self.sets ≤ 8 }
        ensures { result ≡ 2 ^ self.sets }
    {
        1 << self.sets
    }

    // How many numbers a row has.
    pub(crate) fn width(self) -> usize
        requires { self.sets ≤ 8 }
        ensures { result ≡ width self.sets }
    {
        self.columns() + 1
    }
}

/// The memory that an exploration is lent: a record for each state, eight links for each, and rows for all of them.
#[derive(Drop)]
pub struct Memory<'r, 'l, 'w, S> {
    pub records: &'r mut [S],
    pub links: &'l mut [u16],
    pub rows: &'w mut [u16],
}

impl<S> Memory<'_, '_, '_, S> {
    /// Whether the memory is enough for an exploration within these limits. It is for none over more than 8 sets, nor
    /// for a budget that is not from 1 to 512.
    pub fn has_room(&self, limits: Limits) -> bool
        ensures { Decides result (Room limits.sets limits.budget (length self.now.records.now) (length self.now.links.now) (length self.now.rows.now)) }
    {
        limits.sets <= 8
            && (1..=512).contains(&limits.budget)
            && self.records.len() >= limits.budget
            && self.links.len() >= 8 * limits.budget
            && self.rows.len() >= limits.budget * limits.width()
    }
}
