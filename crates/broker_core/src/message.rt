// What nodes and the broker send and keep.
use zk_model::{Block, Out, Span, Want};

/// What nodes and the broker send.
#[derive(Clone, Copy, Debug, PartialEq, Eq)]
pub enum Message {
    Want(Want),
    Block(Block),
    Out(Out),
}

/// What the broker keeps of a node: the number of its last Want that was granted, and the span.
#[derive(Clone, Copy, Debug, PartialEq, Eq)]
pub struct Kept {
    pub number: u64,
    pub span: Span,
}

/// What a node holds: its pending number, and what is left of its block.
#[derive(Clone, Copy, Debug, PartialEq, Eq)]
pub struct Node {
    pub number: u64,
    pub block: Option<Span>,
}

/// A span that a node's journal keeps as claimed.
#[derive(Clone, Copy, Debug, PartialEq, Eq)]
pub struct NodeClaim {
    pub node: u32,
    pub span: Span,
}

/// How a lease for a Want ends.
#[derive(Clone, Copy, Debug, PartialEq, Eq)]
pub enum LeaseEnd {
    /// The span is granted.
    Leased { span: Span },
    /// No units are left; the refused ones begin here.
    Exhausted { at: u64 },
    /// The journal stores no ceiling for it: a put stands.
    Refused,
}
