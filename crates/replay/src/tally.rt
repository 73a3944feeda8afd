// How many rows of a file were compared and how many differ, by kind of call.
use crate::kind::Kind;

#[derive(Clone, Copy, Default)]
pub struct Counts {
    pub compared: u64,
    pub differ: u64,
}

#[derive(Clone, Copy, Default)]
pub struct Tally {
    // How many lines were read: the number of the last of them.
    pub line: u64,
    pub not_understood: u64,
    // In the order of `Kind::ALL`.
    pub counts: [Counts; Kind::COUNT],
}

impl Tally {
    // Counts go up to the largest number, which no file reaches.
    pub fn count_line(&mut self) {
        self.line = self.line.saturating_add(1);
    }

    pub fn count_not_understood(&mut self) {
        self.not_understood = self.not_understood.saturating_add(1);
    }

    // Counts a row of the kind, whose number among the kinds is its place.
    pub fn count_row(&mut self, kind: Kind, is_same: bool) {
        let counts = &mut self.counts[kind as usize];
        counts.compared = counts.compared.saturating_add(1);
        if !is_same {
            counts.differ = counts.differ.saturating_add(1);
        }
    }
}
