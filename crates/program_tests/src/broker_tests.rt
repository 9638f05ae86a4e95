// A node and a broker, at bytes that the program did not make.
use broker_links::{
    Answerer, BrokerNote, BrokerOutcome, Reply, TryOutcome, answer_want, ask_broker,
};
use memory_ports::{NoFault, ScriptedLink};
use std::alloc::Global;
use std::test::Fail;
use std::thread::Threads;
use zk_model::{Block, Out, Want};

/// A broker that has one reply for any want.
#[derive(Drop)]
struct OneReply {
    reply: Option<Reply>,
    asked: Option<Want>,
    told: Option<Result<Reply, u8>>,
}

impl Answerer for OneReply {
    type Fault = u8;

    ghost asked = { λ a. a.asked };

    ghost answer = { λ a. a.told };

    ghost may = { λ a want. Unit {0} };

    ghost moves = { λ a want answer then. Unit {0} };

    fn reply(&mut self, want: Want) -> Result<Reply, u8> {
        let told = self.reply.ok_or(7);
        self.asked = Some(want);
        self.told = Some(told);
        told
    }
}

/// The want number 0x0102030405060708 of a node for so many units, as bytes.
fn want_bytes(node: [u8; 4], count: [u8; 4]) -> [u8; 21] {
    let [n0, n1, n2, n3] = node;
    let [c0, c1, c2, c3] = count;
    [
        11, 16, 0, 0, 0, n0, n1, n2, n3, 8, 7, 6, 5, 4, 3, 2, 1, c0, c1, c2, c3,
    ]
}

/// That number.
const NUMBER: u64 = 0x0102_0304_0506_0708;

/// 16 units of node 1,023 from unit 2^32 + 2 on, and the bytes of that.
const BLOCK: Block = Block {
    node: 1023,
    number: NUMBER,
    start: 0x1_0000_0002,
    count: 16,
};

const BLOCK_BYTES: [u8; 29] = [
    12, 24, 0, 0, 0, 0xFF, 3, 0, 0, 8, 7, 6, 5, 4, 3, 2, 1, 2, 0, 0, 0, 1, 0, 0, 0, 16, 0, 0, 0,
];

/// No units for node 1,023 at unit 258, and the bytes of that.
const OUT: Out = Out {
    node: 1023,
    number: NUMBER,
    at: 258,
};

const OUT_BYTES: [u8; 25] = [
    13, 20, 0, 0, 0, 0xFF, 3, 0, 0, 8, 7, 6, 5, 4, 3, 2, 1, 2, 1, 0, 0, 0, 0, 0, 0,
];

/// What comes of these bytes of a node at a broker with this reply.
fn answered<R: Threads + Sync>(
    rt: &R,
    alloc: Global,
    script: &[u8],
    reply: Option<Reply>,
) -> Result<BrokerNote<ScriptedLink<NoFault>, u8>, Fail> {
    let link = ScriptedLink::new(alloc, script.to_vec(alloc)?, NoFault);
    let mut answerer = OneReply {
        reply,
        asked: None,
        told: None,
    };
    Ok(answer_want(rt, alloc, &mut answerer, link))
}

#[test]
fn a_bad_want_is_bad_at_its_first_bad_byte(rt: HostRuntime) -> Result<(), Fail> {
    let alloc = rt.alloc();
    for (node, count, bad) in [
        ([0, 4, 0, 0], [1, 0, 0, 0], 6),
        ([0xFF, 4, 0, 0], [1, 0, 0, 0], 6),
        ([0, 0, 1, 0], [1, 0, 0, 0], 7),
        ([0, 0, 0, 1], [1, 0, 0, 0], 8),
        ([0, 0, 0, 0], [0, 0, 0, 0], 18),
        ([0, 0, 0, 0], [1, 16, 0, 0], 18),
        ([0, 0, 0, 0], [0, 0, 1, 0], 18),
        ([0, 0, 0, 0], [1, 0, 1, 0], 19),
        ([0, 0, 0, 0], [1, 0, 0, 1], 20),
    ] {
        let note = answered(&rt, alloc, &want_bytes(node, count), Some(Reply::Out(OUT)))?;
        let BrokerOutcome::BadFrame { place } = note.outcome else {
            return Err(Fail::new("the want is taken"));
        };
        assert_eq!(rt; place, bad);
    }
    Ok(())
}

#[test]
fn a_want_is_answered(rt: HostRuntime) -> Result<(), Fail> {
    let alloc = rt.alloc();
    for (bytes, number) in [
        ([1, 0, 0, 0], 1),
        ([0xFF, 15, 0, 0], 4095),
        ([0, 16, 0, 0], 4096),
    ] {
        let script = want_bytes([0xFF, 3, 0, 0], bytes);
        let note = answered(&rt, alloc, &script, Some(Reply::Block(BLOCK)))?;
        let BrokerOutcome::Answered(want, reply) = note.outcome else {
            return Err(Fail::new("the want is not answered"));
        };
        assert_eq!(rt;
            (want.node, want.number, want.count),
            (1023, NUMBER, number)
        );
        assert_eq!(rt; reply, Reply::Block(BLOCK));
        let passed = note.log.bytes();
        assert_eq!(rt; passed.get(..21), Some(script.as_slice()));
        assert_eq!(rt; passed.get(21..), Some(BLOCK_BYTES.as_slice()));
    }
    Ok(())
}

#[test]
fn a_broker_may_have_no_units_or_no_answer(rt: HostRuntime) -> Result<(), Fail> {
    let alloc = rt.alloc();
    let script = want_bytes([0, 0, 0, 0], [1, 0, 0, 0]);
    let note = answered(&rt, alloc, &script[..20], None)?;
    assert!(rt; matches!(note.outcome, BrokerOutcome::PeerEnded { at: 20 }));
    let note = answered(&rt, alloc, &script, Some(Reply::Out(OUT)))?;
    assert_eq!(rt; note.log.bytes().get(21..), Some(OUT_BYTES.as_slice()));
    let note = answered(&rt, alloc, &script, None)?;
    assert!(rt; matches!(note.outcome, BrokerOutcome::Refused(7)));
    assert_eq!(rt; note.log.bytes().len(), 21);
    Ok(())
}

#[test]
fn a_node_takes_what_a_broker_sends(rt: HostRuntime) -> Result<(), Fail> {
    let alloc = rt.alloc();
    let want = Want {
        node: 1023,
        number: NUMBER,
        count: 4096,
    };
    let mut bad_kind = BLOCK_BYTES;
    bad_kind[0] = 11;
    let mut bad_length = OUT_BYTES;
    bad_length[1] = 24;
    for (script, outcome) in [
        (BLOCK_BYTES.as_slice(), TryOutcome::Block(BLOCK)),
        (OUT_BYTES.as_slice(), TryOutcome::Out(OUT)),
        (&BLOCK_BYTES[..28], TryOutcome::PeerEnded { at: 28 }),
        (bad_kind.as_slice(), TryOutcome::BadFrame { place: 0 }),
        (bad_length.as_slice(), TryOutcome::BadFrame { place: 1 }),
    ] {
        let link = ScriptedLink::new(alloc, script.to_vec(alloc)?, NoFault);
        let tried = ask_broker(&rt, alloc, want, link);
        assert_eq!(rt; tried.outcome, outcome);
        let sent = want_bytes([0xFF, 3, 0, 0], [0, 16, 0, 0]);
        assert_eq!(rt; tried.log.bytes().get(..21), Some(sent.as_slice()));
    }
    Ok(())
}
