//! Words of columns: which column is out of range, and what set a word codes.
ghost use Rattle.std.specs.Prelude.{◌≡◌, ◌%◌, ◌^◌, ◌<◌, ◌≤◌, length, take, Decides, MatchOption, slice_index};
ghost use Rattle.words.specs.Sets.{bit, Member};
ghost use Rattle.words.specs.Order.{nth_column};
ghost use Rattle.words.specs.Words.{Columns, coded};

/// Whether a position is a member of a set.
pub fn is_member(set: u64, position: usize) -> bool
    ensures { Decides result (Member position set) }
{
    position < 64 && (set >> position) & 1 == 1
}

/// Whether bit `set` of a column is 1, so that the column's position is in that set.
pub fn in_set(column: u8, set: u8) -> bool
    ensures { Decides result (bit set column ≡ 1) }
{
    is_member(u64::from(column), usize::from(set))
}

/// Whether a byte is a column over so many sets.
pub fn is_column(byte: u8, sets: u8) -> bool
    ensures { Decides result (byte < 2 ^ sets) }
{
    sets >= 8 || byte >> sets == 0
}

/// The k-th column over so many sets, in the order of columns; from 256 on they begin anew.
pub fn nth_column(sets: u8, k: usize) -> u8
    ensures { result ≡ nth_column sets (k % 256) }
{
    // The columns are in the order of their numbers, whatever sets there are.
    let _ = sets;
    (k % 256) as u8
}

/// The position of the first column that is not below 2^sets, if there is one.
pub fn first_outside(word: &[u8], sets: u8) -> Option<usize>
    ensures { MatchOption result (Columns sets word.now) (λ i. (i < length word.now) × (2 ^ sets ≤ slice_index word.now i) × Columns sets (take i word.now)) }
{
    word.iter().position(|column| !is_column(*column, sets))
}

/// The set that a word codes, as a number; none where the word has more than 64 columns, which might not fit.
pub fn number(word: &[u8], set: u8) -> Option<u64>
    ensures { MatchOption result (64 < length word.now) (λ n. (n ≡ coded set word.now) × (length word.now ≤ 64)) }
{
    if word.len() > 64 {
        return None;
    }
    let mut sum: u64 = 0;
    for column in word.iter().rev() {
        sum = 2 * sum + u64::from(in_set(*column, set));
    }
    Some(sum)
}
