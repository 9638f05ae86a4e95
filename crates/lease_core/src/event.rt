// What can happen.
use zk_model::Span;

/// A span that was drawn, and the pass that drew it.
#[derive(Clone, Copy, Debug, PartialEq, Eq)]
pub struct Drawn {
    pub pass: u32,
    pub span: Span,
}

/// What a put of a ceiling into the journal does next, in this order.
#[derive(Clone, Copy, Debug, PartialEq, Eq)]
pub enum Moment {
    /// The slot's body is written, with the ceiling that this pass's last span needs.
    Body { pass: u32 },
    /// The body is synced.
    BodySync,
    /// The slot's gate, its last byte, is written.
    Gate,
    /// The gate is synced: the ceiling is durable.
    GateSync,
}

/// What can happen to a store of leases.
#[derive(Clone, Copy, Debug, PartialEq, Eq)]
pub enum Event {
    /// An era begins at the durable ceiling.
    Begin,
    /// A pass draws the next `n` units.
    Draw { pass: u32, n: u32 },
    /// A pass looks at the ceiling shown.
    Look { pass: u32 },
    /// The journal's put goes on by a moment.
    Put { moment: Moment },
    /// The ceiling of the put is shown.
    Raise,
    /// The last span that a pass drew is granted.
    Spend { pass: u32, span: Span },
    /// A span is claimed by the other end.
    Claim { span: Span },
    /// The store stops, and the slot of the put then holds these bytes and this gate. A gate is open where it is
    /// 0x5A; the body is synced before the gate is written, so these bytes change nothing.
    Crash { body: [u8; 16], gate: u8 },
}
