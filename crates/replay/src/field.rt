// A table or a search with one field set to another value. An index past an array's end, or another number, leaves it as it is.
use board::Table;
use search::Search;

// A field by its number in a container, the index of an element in it, and a value. The numbers are the container's: they are told apart here and nowhere else.
#[derive(Clone, Copy)]
pub(crate) struct Field {
    pub number: u8,
    pub index: usize,
    pub value: u64,
}

// Puts the value at an index.
fn put<T: Copy + Drop>(array: &mut [T], index: usize, value: T) {
    if let Some(place) = array.get_mut(index) {
        *place = value;
    }
}

impl Field {
    // Sets it in a table: 0 atoms, 1 hypotheses, 2 rules, 3 declaration, 4 atom, 5 weight, 6 head, 7 body.
    pub(crate) fn set_in_table(self, t: &mut Table) {
        let count = self.value as usize;
        let byte = (self.value & 0xff) as u8;
        match self.number {
            0 => t.atoms = count,
            1 => t.hypotheses = count,
            2 => t.rules = count,
            3 => put(&mut t.declaration, self.index, byte),
            4 => put(&mut t.atom, self.index, byte),
            5 => put(&mut t.weight, self.index, (self.value & 0xffff_ffff) as u32),
            6 => put(&mut t.head, self.index, byte),
            7 => put(&mut t.body, self.index, byte),
            _ => {}
        }
    }

    // Sets it in a search: 0 the count of entries, 1 that of lines; of an entry 2 weight, 3 and 4 the words of D, 5 and 6 those of what is pending; of a line
    // 7 weight, 8 and 9 the words of its set.
    pub(crate) fn set_in_search(self, s: &mut Search) {
        let number = usize::from(self.number);
        match number {
            0 => s.entries = self.value as usize,
            1 => s.lines = self.value as usize,
            2..=6 if self.index < 512 => s.entry[5 * self.index + number - 2] = self.value,
            7..=9 if self.index < 256 => s.line[256 * (number - 7) + self.index] = self.value,
            _ => {}
        }
    }
}
