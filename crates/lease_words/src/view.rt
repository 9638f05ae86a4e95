// What seats at the lease table know, in proofs alone: no value of `View` is made.
use std::collections::LinkedList;

/// Where the units begin that this table may give out, and how many there are in all.
#[derive(Clone, Copy, Debug, PartialEq, Eq)]
pub struct Bounds {
    pub base: u64,
    pub total: u64,
}

/// What the table is told once: its bounds, and the name of what keeps its ceiling.
#[derive(Clone, Copy)]
pub struct Key {
    pub bounds: Bounds,
    pub keeper: [u8; 32],
}

/// A draw: which pass drew, from where, and how many.
#[derive(Clone, Copy, Debug, PartialEq, Eq)]
pub struct Entry {
    pub pass: u32,
    pub start: u64,
    pub count: u32,
}

/// What a pass knows: its number, the ceiling that it saw last, and the mark that it saw last.
#[derive(Clone, Copy, Debug, PartialEq, Eq)]
pub struct Report {
    pub number: u32,
    pub known: u64,
    pub mark: u64,
}

/// What a seat knows. A pass has its own report and its own entries, and the journal's seat those of the passes that it took in.
/// Up to `drawn` units were drawn, as the seat knows. It met so many faults of the journal, and no other seat did those.
pub struct View {
    pub journal: bool,
    pub keeper: [u8; 32],
    pub total: u64,
    pub ceiling: u64,
    pub made: u32,
    pub own_mark: u64,
    pub looks: u64,
    pub drawn: u64,
    pub met: u64,
    pub reports: LinkedList<Report>,
    pub entries: LinkedList<Entry>,
}
