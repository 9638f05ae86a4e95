// Eras, crashes and claims of the lease machine.
use lease_core::{Event, Moment, State, run};
use std::alloc::AllocError;
use std::test::Fail;
use zk_model::Span;

const OPEN: u8 = 0x5A;

/// The moments of a put after its body.
const BODY_SYNC: Event = Event::Put {
    moment: Moment::BodySync,
};

const GATE: Event = Event::Put {
    moment: Moment::Gate,
};

const GATE_SYNC: Event = Event::Put {
    moment: Moment::GateSync,
};

fn span(start: u64, end: u64) -> Span {
    Span { start, end }
}

/// A lease of 3 of 100 units from unit 0 on.
const LEASE: [Event; 9] = [
    Event::Begin,
    Event::Draw { pass: 0, n: 3 },
    Event::Put {
        moment: Moment::Body { pass: 0 },
    },
    BODY_SYNC,
    GATE,
    GATE_SYNC,
    Event::Raise,
    Event::Look { pass: 0 },
    Event::Spend {
        pass: 0,
        span: Span { start: 0, end: 3 },
    },
];

/// How many events of the lease took place before a crash, the gate that it left, and where the next era begins.
const CRASHES: [(usize, u8, u64); 7] = [
    (2, OPEN, 0),
    (3, OPEN, 0),
    (4, OPEN, 0),
    (5, OPEN, 16),
    (5, 0, 0),
    (6, 0, 16),
    (9, 0, 16),
];

/// Whether the next era's first lease, by another pass, is of this span, and is granted once and not before its ceiling
/// is shown.
fn leases_next(state: &mut State, granted: Span) -> Result<bool, AllocError> {
    let grant = Event::Spend {
        pass: 1,
        span: granted,
    };
    let drawn = run(state, &[Event::Begin, Event::Draw { pass: 1, n: 3 }])?;
    let early = state.step(grant)?;
    let stored = [
        Event::Put {
            moment: Moment::Body { pass: 1 },
        },
        BODY_SYNC,
        GATE,
        GATE_SYNC,
        Event::Raise,
        grant,
    ];
    let leased = run(state, &stored)?;
    let again = state.step(grant)?;
    Ok(drawn && !early && leased && !again)
}

#[test]
fn an_era_begins_at_the_ceiling_that_a_crash_leaves(rt: HostRuntime) -> Result<(), Fail> {
    for (count, gate, start) in CRASHES {
        let mut state = State::new(rt.alloc(), 100, 2)?;
        assert!(rt; run(&mut state, &LEASE[..count])?);
        let crash = Event::Crash {
            body: [0xFF; 16],
            gate,
        };
        assert!(rt; state.step(crash)?);
        assert!(rt; leases_next(&mut state, span(start, start + 3))?);
    }
    Ok(())
}

#[test]
fn claims_that_meet_are_not_possible(rt: HostRuntime) -> Result<(), Fail> {
    let mut state = State::new(rt.alloc(), 10, 1)?;
    assert!(rt; state.step(Event::Claim { span: span(0, 4) })?);
    assert!(rt; !state.step(Event::Claim { span: span(3, 5) })?);
    assert!(rt; state.step(Event::Claim { span: span(4, 5) })?);
    assert!(rt; !state.step(Event::Claim { span: span(9, 11) })?);
    Ok(())
}
