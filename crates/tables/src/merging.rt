//! Merging of the states that no word tells apart. A class is named by its lowest state.
ghost use Rattle.std.specs.Prelude.{◌≡◌, ℕ, ◌+◌, ◌*◌, ◌^◌, ◌<◌, ◌≤◌, length, drop, slice_index};
ghost use Rattle.words.specs.Described.{described};
ghost use Rattle.words.specs.Rows.{width};
ghost use Rattle.words.proofs.Merging.{Lowest, Alike};
ghost use Rattle.tables.specs.Classing.{Closed, Classed};
ghost use Rattle.tables.specs.Merged.{Merged};
ghost use Rattle.tables.specs.Numbered.{Numbered, WroteRow, Wrote};
ghost use Rattle.tables.specs.Tabulated.{Elsewhere};

use words::{Rows, cell};

// The states of rows, each with its class. A pass puts the new classes together in `fresh`.
#[derive(Drop)]
struct Classes<'r, 'm> {
    rows: Rows<'r>,
    class: &'m mut [u16],
    fresh: &'m mut [u16],
    ghost closed: { Closed rows },
    ghost room: { (length class.now ≡ rows.states) × (length fresh.now ≡ rows.states) },
    ghost classed: { Classed rows class.now },
}

impl<'r, 'm> Classes<'r, 'm> {
    ghost use Rattle.tables.specs.Refined.{Refines, Settled};

    // The first classes, by the mark alone.
    fn by_mark(rows: &Rows<'r>, class: &'m mut [u16], fresh: &'m mut [u16]) -> Self
        requires closed { Closed rows.now }
        requires room { (length class.old ≡ rows.now.states) × (length fresh.old ≡ rows.now.states) }
        ensures { result.rows ≡ rows.now }
    {
        for s in 0..rows.states {
            class[usize::from(s)] = lowest_marked(rows, s);
        }
        Classes {
            rows: *rows,
            class,
            fresh,
        }
    }

    // The class of a state.
    fn class_at(&self, s: u16) -> u16
        ensures { result ≡ slice_index self.now.class.now s }
    {
        cell(self.class, usize::from(s))
    }

    // The class to which a column leads from a state.
    fn class_after(&self, column: u8, s: u16) -> u16
        ensures { result ≡ slice_index self.now.class.now ((described self.now.rows).step s column) }
    {
        self.class_at(self.rows.step(s, column))
    }

    // The lowest state of the class of `s` that the column leads to the same class as `s`. Where the column splits
    // nothing, this is the first one that is looked at.
    fn lowest_alike(&self, column: u8, s: u16) -> u16
        requires here { s < self.now.rows.states }
        ensures { Lowest (Alike (described self.now.rows).step (slice_index self.now.class.now) column s) result }
    {
        let own = self.class_at(s);
        let goal = self.class_after(column, s);
        (own..s)
            .find(|t| self.class_at(*t) == own && self.class_after(column, *t) == goal)
            .unwrap_or(s)
    }

    // One pass: splits each class by the classes to which a column leads, and tells whether a class was split. Where
    // none was, each state costs one look.
    fn pass(&mut self, column: u8) -> bool
        requires small { column < 2 ^ self.old.rows.places }
        ensures { Refines self.old (λ c. c ≡ column) self.new result }
    {
        for s in 0..self.rows.states {
            self.fresh[usize::from(s)] = self.lowest_alike(column, s);
        }
        let class = &mut *self.class;
        let fresh = &*self.fresh;
        let split = fresh != &*class;
        if split {
            class.copy_from_slice(fresh);
        }
        split
    }

    // One round: a pass by each column. Tells whether a class was split.
    fn round(&mut self) -> bool
        ensures { Refines self.old (λ c. c < 2 ^ self.new.rows.places) self.new result }
    {
        let rows = self.rows;
        let mut refined = false;
        for column in 0..rows.columns() {
            refined |= self.pass(column as u8);
        }
        refined
    }

    // Refines the classes until a whole round splits nothing. A round that splits nothing costs one look for each
    // state and column. A round that splits costs at most as many looks as there are pairs of states, for each
    // column; there are fewer such rounds than states.
    fn refine(&mut self)
        ensures rows { self.new.rows ≡ self.old.rows }
        ensures settled { (c : ℕ) → c < 2 ^ self.new.rows.places → Settled self.new c }
    {
        while self.round() {}
    }

    // Numbers the classes by their lowest states, in order: writes the number of each state's class, and answers the
    // lowest state of each number, in the memory of the new classes.
    fn number(self, numbers: &mut [u16]) -> &'m [u16]
        requires room { self.rows.states ≤ length numbers.old }
        ensures { Numbered (slice_index self.entry.class.now) self.entry.rows.states (slice_index numbers.new) (slice_index result.now) (length result.now) }
    {
        let Classes { class, fresh, .. } = self;
        let mut count = 0;
        for (s, &own) in class.iter().enumerate() {
            if usize::from(own) == s {
                fresh[count] = own;
                numbers[s] = count as u16;
                count += 1;
            } else {
                numbers[s] = numbers[usize::from(own)];
            }
        }
        &fresh[..count]
    }
}

// The lowest state that has the mark of `s`.
fn lowest_marked(rows: &Rows, s: u16) -> u16
    ensures { Lowest (λ t. (described rows.now).accepts t ≡ (described rows.now).accepts s) result }
{
    let mark = rows.accepts(s);
    (0..s).find(|t| rows.accepts(*t) == mark).unwrap_or(s)
}

// Writes the row of a merged state, from the lowest state of its class: where each column leads, by the numbers of
// the classes, and the mark.
fn write_row(rows: &Rows, numbers: &[u16], low: u16, row: &mut [u16])
    requires { length row.old ≡ width rows.now.places }
    ensures { WroteRow (described rows.now) rows.now.places (slice_index numbers.now) low row.new }
{
    let columns = rows.columns();
    for (column, next) in row[..columns].iter_mut().enumerate() {
        *next = cell(numbers, usize::from(rows.step(low, column as u8)));
    }
    row[columns] = u16::from(rows.accepts(low));
}

// Writes the rows of the merged states, each from the lowest state of its class.
fn write_rows(rows: &Rows, numbers: &[u16], leaders: &[u16], out: &mut [u16])
    requires { length leaders.now * width rows.now.places ≤ length out.old }
    ensures { Wrote (described rows.now) rows.now.places (slice_index numbers.now) (slice_index leaders.now) (length leaders.now) out.old out.new }
{
    let width = rows.width();
    for (j, low) in leaders.iter().enumerate() {
        write_row(rows, numbers, *low, &mut out[j * width..(j + 1) * width]);
    }
}

// Merges the states that no word tells apart: writes a row for each class, numbered by its lowest state, from `base`
// on, and answers how many there are.
pub(crate) fn merge_states(
    raw: &Rows,
    class: &mut [u16],
    fresh: &mut [u16],
    numbers: &mut [u16],
    out: &mut [u16],
    base: usize,
) -> u16
    requires closed { Closed raw.now }
    requires room { (raw.now.states ≤ length class.old) × (raw.now.states ≤ length fresh.old) × (raw.now.states ≤ length numbers.old) }
    requires slot { base + raw.now.states * width raw.now.places ≤ length out.old }
    ensures few { result ≤ raw.now.states }
    ensures merged { Merged raw.now.places raw.now.states raw.now.cells.now result (drop base out.new) }
    ensures elsewhere { Elsewhere base (result * width raw.now.places) out.old out.new }
{
    let states = usize::from(raw.states);
    let mut classes = Classes::by_mark(raw, &mut class[..states], &mut fresh[..states]);
    classes.refine();
    let leaders = classes.number(numbers);
    write_rows(raw, numbers, leaders, &mut out[base..]);
    leaders.len() as u16
}
