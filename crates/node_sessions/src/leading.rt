// One session of a node.
ghost use Rattle.std.specs.Prelude.{◌≡◌, []};
ghost use Rattle.zk_port.specs.Doors.{IsFreshLink};
ghost use Rattle.node_grants.specs.Desks.{IsHeldWithin, desk};
ghost use Rattle.node_grants.specs.Grants.{ports_of};
ghost use Rattle.node_sessions.specs.Sessions.{HoldsWithin, IsLed};

use broker_node::NodeCore;
use claim_store::ClaimStore;
use node_grants::NodeLender;
use session_core::VerifierJobs;
use session_verifier::{LogKeeper, SessionNote, lead_session};
use std::alloc::Global;
use std::thread::Threads;
use zk_port::{Disk, Door};

/// Leads a session over a fresh link with units that the node grants, and has its log kept.
pub(crate) fn lead_with_node<K: LogKeeper, R: Threads + Sync, B: Disk, D: Door>(
    rt: &R,
    alloc: Global,
    jobs: &VerifierJobs<'_>,
    keeper: &K,
    broker: &str,
    patience: u32,
    node: &mut NodeCore,
    claims: &mut ClaimStore<B>,
    door: &mut D,
    link: D::Link,
) -> SessionNote<D::Link>
where
    D::Link: Drop,
    requires fresh { IsFreshLink (D.Link.state link) }
    requires total { claims.old.total ≡ jobs.now.first.task.file.params.total }
    requires within { IsHeldWithin node.old claims.old.total }
    ensures led { IsLed (ports_of D.Link.state B.state broker.now patience) jobs.now
        (desk node.old claims.old (D.state door.old) [])
        (desk node.new claims.new (D.state door.new) result.tries.items) result }
    ensures holds { HoldsWithin claims.old node.new claims.new }
{
    let mut tries = Vec::new(alloc);
    let mut lender = NodeLender {
        rt,
        alloc,
        broker,
        patience,
        node,
        claims,
        door,
        tries: &mut tries,
        asked: None,
        answer: None,
    };
    let mut note = lead_session(rt, alloc, jobs, &mut lender, link);
    let NodeLender {
        rt: _,
        alloc: _,
        broker: _,
        patience: _,
        node: _,
        claims: _,
        door: _,
        tries: _,
        asked: _,
        answer: _,
    } = lender;
    note.tries = tries;
    keeper.keep(alloc, &note);
    note
}
