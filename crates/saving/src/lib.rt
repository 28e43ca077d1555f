//! Tables written as text.
#![tactic(auto)]

mod line;
mod table;
mod text;
mod unsaved;

pub use line::{write_line, write_names};
pub use table::save_rows;
pub use unsaved::Unsaved;

#[cfg(test)]
mod tests {
    use super::*;
    use words::Rows;

    // Set 0 has exactly one member.
    const ONE_MEMBER: Rows<'static> = Rows {
        places: 1,
        states: 3,
        cells: &[0, 1, 0, 1, 2, 1, 2, 2, 0],
    };

    // Into a buffer with a byte to spare, which stays.
    #[test]
    fn one_member(rt: HostRuntime) {
        let mut buffer = [9u8; 45];
        assert_eq!(rt; save_rows(&ONE_MEMBER, &mut buffer), Ok(44));
        assert!(rt; buffer == *b"state accepts n0 n1\n0 0 0 1\n1 1 1 2\n2 0 2 2\n\t");
    }

    // Each member of set 0 is in set 1.
    #[test]
    fn within(rt: HostRuntime) {
        let rows = Rows {
            places: 2,
            states: 2,
            cells: &[0, 1, 0, 0, 1, 1, 1, 1, 1, 0],
        };
        let mut buffer = [9u8; 50];
        assert_eq!(rt; save_rows(&rows, &mut buffer), Ok(50));
        assert!(rt; buffer == *b"state accepts n0 n1 n2 n3\n0 1 0 1 0 0\n1 0 1 1 1 1\n");
    }

    // Sixteen columns, and numbers of up to five digits; past the end of the cells there is 0.
    #[test]
    fn four_sets(rt: HostRuntime) {
        let rows = Rows {
            places: 4,
            states: 1,
            cells: &[9, 10, 99, 100, 65535],
        };
        let mut buffer = [9u8; 112];
        assert_eq!(rt; save_rows(&rows, &mut buffer), Ok(112));
        let (names, row) = buffer.split_at(68);
        assert!(rt;
            names
                == b"state accepts n0 n1 n2 n3 n4 n5 n6 n7 n8 n9 n10 n11 n12 n13 n14 n15\n".as_slice()
        );
        assert!(rt; row == b"0 0 9 10 99 100 65535 0 0 0 0 0 0 0 0 0 0 0\n".as_slice());
    }

    // One byte too few, or one set too many: nothing is written.
    #[test]
    fn refused(rt: HostRuntime) {
        let mut buffer = [9u8; 43];
        assert_eq!(rt; save_rows(&ONE_MEMBER, &mut buffer), Err(Unsaved::NoBuffer));
        let rows = Rows {
            places: 5,
            states: 0,
            cells: &[],
        };
        assert_eq!(rt; save_rows(&rows, &mut buffer), Err(Unsaved::TooManySets));
        assert!(rt; buffer == [9; 43]);
    }
    // One line alone, into a buffer with a byte to spare, which stays.
    #[test]
    fn lines(rt: HostRuntime) {
        let mut buffer = [9u8; 12];
        assert_eq!(rt; write_line(&[0, 10, 65535], &mut buffer), Some(11));
        assert!(rt; buffer == *b"0 10 65535\n\t");
        let mut names = [9u8; 21];
        assert_eq!(rt; write_names(1, &mut names), Some(20));
        assert!(rt; names == *b"state accepts n0 n1\n\t");
    }

    // One byte too few, or one set too many: nothing is written.
    #[test]
    fn no_line(rt: HostRuntime) {
        let mut buffer = [9u8; 10];
        assert_eq!(rt; write_line(&[0, 10, 65535], &mut buffer), None);
        assert_eq!(rt; write_names(0, &mut buffer), None);
        assert_eq!(rt; write_names(5, &mut buffer), None);
        assert!(rt; buffer == [9; 10]);
    }
}
