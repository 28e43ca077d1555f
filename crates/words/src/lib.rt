//! Finite sets of positions, the words of columns that code them, and automata written out in rows.
#![tactic(auto)]

mod laws;
mod rows;
mod table;
mod word;

pub use laws::{laws_of_hiding, laws_of_tables, laws_of_words};
pub use rows::{Rows, cell, put};
pub use table::Table;
pub use word::{first_outside, in_set, is_column, is_member, nth_column, number};

#[cfg(test)]
mod tests {
    use super::*;

    #[test]
    fn sets_of_a_word(rt: HostRuntime) {
        // set 0 is {0, 1}, set 1 is {1}, set 2 has no member
        assert_eq!(rt; number(&[1, 3, 0], 0), Some(3));
        assert_eq!(rt; number(&[1, 3, 0], 1), Some(2));
        assert_eq!(rt; number(&[1, 3, 0], 2), Some(0));
        assert_eq!(rt; number(&[], 0), Some(0));
        assert_eq!(rt; number(&[1; 64], 0), Some(u64::MAX));
        assert_eq!(rt; number(&[0; 65], 0), None);
    }

    #[test]
    fn columns_in_range(rt: HostRuntime) {
        assert_eq!(rt; first_outside(&[3, 1, 0], 2), None);
        assert_eq!(rt; first_outside(&[3, 4, 9], 2), Some(1));
        assert_eq!(rt; first_outside(&[255], 8), None);
        assert_eq!(rt; first_outside(&[1], 0), Some(0));
    }
}
