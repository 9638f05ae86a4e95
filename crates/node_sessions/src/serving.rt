// All sessions of a node.
ghost use Rattle.std.specs.Prelude.{◌≡◌, ◌≤◌, [], length};
ghost use Rattle.node_grants.specs.Desks.{desk};
ghost use Rattle.node_grants.specs.Grants.{ports_of};
ghost use Rattle.broker_node.specs.NodeStates.{starting};
ghost use Rattle.node_sessions.specs.Sessions.{ServesAsNode};
ghost use Rattle.node_sessions.specs.Causes.{HaveCauses};
ghost use Rattle.node_sessions.specs.Journals.{JournalSaysGrants};
ghost use Rattle.node_sessions.specs.Laws.{GrantsClaim, GrantsNoUnitTwice, ClaimsStay};

use crate::leading::lead_with_node;
use crate::served::NodeServed;
use broker_node::NodeCore;
use claim_store::ClaimStore;
use session_core::VerifierJobs;
use session_verifier::LogKeeper;
use std::alloc::Global;
use std::thread::Threads;
use zk_port::{Disk, Door, PortFault};

/// Leads the sessions, one after another.
fn lead_all<K: LogKeeper, R: Threads + Sync, B: Disk, D: Door>(
    rt: &R,
    alloc: Global,
    jobs: &VerifierJobs<'_>,
    keeper: &K,
    broker: &str,
    patience: u32,
    number: u32,
    claims: ClaimStore<B>,
    door: D,
    sessions: u32,
) -> NodeServed<D::Link, D, B>
where
    D::Link: Drop,
    requires total { claims.total ≡ jobs.now.first.task.file.params.total }
    ensures { ServesAsNode (ports_of D.Link.state B.state broker.now patience) jobs.now sessions
        (desk (starting number) claims (D.state door) []) (D.state result.door) result.claims
        result.door_failed result.memory_failed result.notes.items }
{
    let mut node = NodeCore::new(number);
    let mut served = NodeServed {
        notes: Vec::new(alloc),
        door,
        claims,
        door_failed: false,
        memory_failed: false,
    };
    if served.notes.reserve(sessions as usize).is_err() {
        served.memory_failed = true;
        return served;
    }
    'sessions: for _ in 0..sessions {
        match served.door.next(alloc) {
            Ok(Some(link)) => {
                let note = lead_with_node(
                    rt,
                    alloc,
                    jobs,
                    keeper,
                    broker,
                    patience,
                    &mut node,
                    &mut served.claims,
                    &mut served.door,
                    link,
                );
                served.notes.push_reserved(note);
            }
            Ok(None) => return served,
            Err(PortFault::Failed) => {
                served.door_failed = true;
                return served;
            }
            Err(PortFault::NoMemory) => {
                served.memory_failed = true;
                return served;
            }
        }
    }
    served
}

/// Leads sessions about the statements with the provers that call at the door, so many at most and one after another, with units that the
/// node of this number grants: those of its block, or of another that it asks the broker at an address for. A link to the broker on which
/// nothing passes for as many seconds as the patience has fails. What the keeper is told of is each session that has ended.
pub fn serve_node<K: LogKeeper, R: Threads + Sync, B: Disk, D: Door>(
    rt: &R,
    alloc: Global,
    jobs: &VerifierJobs<'_>,
    keeper: &K,
    broker: &str,
    patience: u32,
    number: u32,
    claims: ClaimStore<B>,
    door: D,
    sessions: u32,
) -> NodeServed<D::Link, D, B>
where
    D::Link: Drop,
    requires total { claims.total ≡ jobs.now.first.task.file.params.total }
    ensures serves { ServesAsNode (ports_of D.Link.state B.state broker.now patience) jobs.now sessions
        (desk (starting number) claims (D.state door) []) (D.state result.door) result.claims
        result.door_failed result.memory_failed result.notes.items }
    ensures once { GrantsNoUnitTwice jobs.now claims.total result.notes.items }
    ensures claimed { GrantsClaim claims.claims result.claims.claims result.notes.items }
    ensures kept { ClaimsStay B.state claims result.claims }
    ensures journal { JournalSaysGrants (ports_of D.Link.state B.state broker.now patience) jobs.now
        (desk (starting number) claims (D.state door) []) result.claims result.notes.items }
    ensures causes { HaveCauses D.Link.state B.state jobs.now
        (desk (starting number) claims (D.state door) []) (D.state result.door) result.claims
        result.notes.items }
{
    lead_all(
        rt, alloc, jobs, keeper, broker, patience, number, claims, door, sessions,
    )
}
