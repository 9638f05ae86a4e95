// Worlds of 100 units, step by step.
use super::*;
use std::alloc::AllocError;
use zk_model::{Block, Span};

const BODY: [u8; 16] = [0; 16];

fn block(node: u32, number: u64, start: u64) -> Option<Message> {
    Some(Message::Block(Block {
        node,
        number,
        start,
        count: 16,
    }))
}

#[test]
fn one_block_is_spent_once(rt: HostRuntime) -> Result<(), AllocError> {
    let mut world = World::new(rt.alloc(), 100, 2)?;
    let events = [
        BrokerEvent::Ask { node: 1, n: 3 },
        BrokerEvent::ToBroker { i: 0 },
        BrokerEvent::ToBroker { i: 0 },
        BrokerEvent::ToNode { i: 1 },
        BrokerEvent::Spend { node: 1, n: 3 },
        BrokerEvent::BrokerCrash {
            body: BODY,
            gate: 0,
        },
        BrokerEvent::ToBroker { i: 0 },
        BrokerEvent::ToNode { i: 3 },
        // the node crashes and asks anew; the late Block comes, and is refused
        BrokerEvent::NodeCrash { node: 1 },
        BrokerEvent::Ask { node: 1, n: 3 },
        BrokerEvent::ToNode { i: 1 },
    ];
    assert!(rt; run(&mut world, &events)?);
    for (i, want) in [block(1, 1, 0), block(1, 1, 0), block(1, 1, 16)]
        .iter()
        .enumerate()
    {
        assert!(rt; world.sent.get(i + 1).copied() == *want);
    }
    assert!(rt;
        world.nodes.get(1).copied()
            == Some(Node {
                number: 2,
                block: None
            })
    );
    assert!(rt; world.claims.len() == 1);
    assert!(rt; world.spent.first().copied() == Some(Span { start: 0, end: 3 }));
    Ok(())
}

#[test]
fn impossible_events_change_nothing(rt: HostRuntime) -> Result<(), AllocError> {
    let mut world = World::new(rt.alloc(), 100, 1)?;
    let events = [
        (BrokerEvent::Ask { node: 1, n: 1 }, false),
        (BrokerEvent::Ask { node: 0, n: 0 }, false),
        (BrokerEvent::Ask { node: 0, n: 4097 }, false),
        (BrokerEvent::ToBroker { i: 0 }, false),
        (BrokerEvent::Spend { node: 0, n: 1 }, false),
        (BrokerEvent::Ask { node: 0, n: 3 }, true),
        (BrokerEvent::ToNode { i: 0 }, false),
        (BrokerEvent::BrokerFail { i: 0, steps: 10 }, false),
        // a put stands: the next lease draws and looks, and is refused
        (BrokerEvent::BrokerFail { i: 0, steps: 5 }, true),
        (BrokerEvent::ToBroker { i: 0 }, true),
        (BrokerEvent::BrokerFail { i: 0, steps: 3 }, false),
        (BrokerEvent::BrokerFail { i: 0, steps: 2 }, true),
        // the gate that was written is open: its ceiling counts
        (
            BrokerEvent::BrokerCrash {
                body: BODY,
                gate: 0x5A,
            },
            true,
        ),
        (BrokerEvent::ToBroker { i: 0 }, true),
        // a Want that comes again has no step
        (BrokerEvent::BrokerFail { i: 0, steps: 1 }, false),
        (BrokerEvent::BrokerFail { i: 0, steps: 0 }, true),
        (BrokerEvent::NodeFail { i: 1, kept: true }, true),
        (BrokerEvent::NodeCut { i: 1, kept: true }, false),
    ];
    for (event, possible) in events {
        assert!(rt; world.step(event)? == possible);
    }
    assert!(rt; world.sent.get(1).copied() == block(0, 1, 16));
    assert!(rt;
        world.nodes.first().copied()
            == Some(Node {
                number: 2,
                block: None
            })
    );
    Ok(())
}
