//! A saved table as a book.
ghost use Rattle.std.specs.Prelude.{◌≡◌, ℕ, ◌+◌, ◌*◌, ◌^◌, ◌<◌, ◌≤◌, slice_index};
ghost use Rattle.words.specs.Rows.{next_of, mark_of};

/// The most numbers that a saved table has: 512 rows over 4 places. So much memory is enough for every draft.
pub const MOST_CELLS: usize = 8704;

/// A book with one predicate, number 0: a saved table under a name. Its start is state 0. A place for a loaded book holds
/// a blank one at first, which has no predicate.
#[derive(Drop)]
pub struct Loaded {
    pub(crate) name: [u8; 3],
    pub(crate) places: u8,
    pub(crate) states: u16,
    pub(crate) cells: [u16; MOST_CELLS],
    ghost few_places: { places ≤ 4 },
    ghost few_states: { states ≤ 512 },
    ghost some_places: { (1 ≤ states → 1 ≤ places) },
    ghost blank: { (states ≡ 0 → places ≡ 0) },
    ghost letters: { ((i : ℕ) → 1 ≤ states → i < 3 → (97 ≤ slice_index name i) × (slice_index name i ≤ 122)) },
    ghost sixteen_bits: { ((i : ℕ) → slice_index cells i ≤ 65535) },
    ghost nexts: { ((s : ℕ) (c : ℕ) → s < states → c < 2 ^ places → next_of places cells s c < states) },
    // a state and the one that column 0 leads to accept alike
    ghost settled: { ((s : ℕ) → s < states → mark_of places cells (next_of places cells s 0) ≡ mark_of places cells s) },
}
