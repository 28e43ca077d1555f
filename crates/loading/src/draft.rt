//! A saved table that has been begun and not yet finished.
ghost use Rattle.std.specs.Prelude.{◌≡◌, ◌≤◌};

/// How many places and how many rows a draft has. Its rows lie in memory that the caller keeps, and gives to each call
/// again. A draft ends in `seal` or `discard`: it is neither copied nor let go.
pub struct Draft {
    pub(crate) places: u8,
    pub(crate) rows: u16,
    ghost some_places: { 1 ≤ places },
    ghost few_places: { places ≤ 4 },
    ghost few_rows: { rows ≤ 512 },
}

impl Draft {
    /// Over how many places the draft is.
    pub fn places(&self) -> u8
        ensures { result ≡ self.now.places }
    {
        self.places
    }

    /// How many rows it has taken.
    pub fn rows(&self) -> u16
        ensures { result ≡ self.now.rows }
    {
        self.rows
    }
}
