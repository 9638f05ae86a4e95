// What nodes and a broker of units send.

/// A node asks for units: its number, the number of its want, and how many.
#[derive(Clone, Copy, Debug, PartialEq, Eq)]
pub struct Want {
    pub node: u32,
    pub number: u64,
    pub count: u32,
}

/// Units are leased to a node, as the answer to its want of this number: so many from `start` on.
#[derive(Clone, Copy, Debug, PartialEq, Eq)]
pub struct Block {
    pub node: u32,
    pub number: u64,
    pub start: u64,
    pub count: u32,
}

/// No units are left for a node's want of this number: the lease was refused at unit `at`.
#[derive(Clone, Copy, Debug, PartialEq, Eq)]
pub struct Out {
    pub node: u32,
    pub number: u64,
    pub at: u64,
}
