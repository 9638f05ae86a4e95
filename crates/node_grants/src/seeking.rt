// How a node gets units of its broker.
ghost use Rattle.std.specs.Prelude.{◌≡◌, ◌≤◌, ◌<◌};
ghost use Rattle.node_grants.specs.Desks.{HasTooFew, desk};
ghost use Rattle.node_grants.specs.Grants.{ComesTo, IsGrantOf, IsTryResult, TakesTo, Tried, ports_of};

use broker_links::{Try, TryOutcome, ask_broker};
use broker_node::NodeCore;
use claim_store::{ClaimFault, ClaimStore};
use lease_store::{GrantFault, LeaseFault};
use std::alloc::Global;
use std::thread::Threads;
use zk_model::{Block, Span};
use zk_port::{Disk, Door, PortFault};

/// How many tries a grant makes at most.
pub const TRIES: u32 = 64;

/// Takes a block that came. One that is not taken, or that the claims refuse, is passed over.
fn take_block<B: Disk>(
    alloc: Global,
    node: &mut NodeCore,
    claims: &mut ClaimStore<B>,
    block: Block,
) -> Result<(), GrantFault>
    ensures { TakesTo B.state node.old claims.old block result node.new claims.new }
{
    match node.take(alloc, claims, block) {
        Ok(_taken) => Ok(()),
        Err(ClaimFault::OutOfRange { .. } | ClaimFault::Overlap { .. } | ClaimFault::Full { .. }) =>
            Ok(()),
        Err(ClaimFault::Device) => Err(GrantFault::Lease(LeaseFault::Device)),
        Err(ClaimFault::Broken { first }) => Err(GrantFault::Lease(LeaseFault::Broken { first })),
        Err(ClaimFault::NoMemory) => Err(GrantFault::NoMemory),
    }
}

/// What a try comes to: the block that came is taken; a broker that has none, that ended or that sent what is no reply is passed over.
fn meet<B: Disk>(
    alloc: Global,
    node: &mut NodeCore,
    claims: &mut ClaimStore<B>,
    outcome: TryOutcome,
) -> Result<(), GrantFault>
    ensures { ComesTo B.state outcome node.old claims.old result node.new claims.new }
{
    match outcome {
        TryOutcome::Block(block) => take_block(alloc, node, claims, block),
        TryOutcome::Out(_) | TryOutcome::PeerEnded { .. } | TryOutcome::BadFrame { .. } => Ok(()),
        TryOutcome::Link => Err(GrantFault::Broker),
        TryOutcome::NoMemory => Err(GrantFault::NoMemory),
    }
}

/// Sends the want of the pending number over a new link, and meets the reply.
fn try_once<R: Threads + Sync, B: Disk, D: Door>(
    rt: &R,
    alloc: Global,
    broker: &str,
    patience: u32,
    node: &mut NodeCore,
    claims: &mut ClaimStore<B>,
    door: &mut D,
    tries: &mut Vec<Try<D::Link>>,
    count: u32,
) -> Result<(), GrantFault>
    ensures { IsTryResult (ports_of D.Link.state B.state broker.now patience) count result
        (desk node.old claims.old (D.state door.old) tries.old.items)
        (desk node.new claims.new (D.state door.new) tries.new.items) }
{
    if tries.reserve(1).is_err() {
        return Err(GrantFault::NoMemory);
    }
    let link = match door.connect(alloc, broker, patience) {
        Ok(link) => link,
        Err(PortFault::Failed) => return Err(GrantFault::Broker),
        Err(PortFault::NoMemory) => return Err(GrantFault::NoMemory),
    };
    let tried = ask_broker(rt, alloc, node.ask(count), link);
    let outcome = tried.outcome;
    tries.push_reserved(tried);
    meet(alloc, node, claims, outcome)
}

/// Draws units of the node's block; where too few are left, asks the broker for another, by so many tries at most.
pub(crate) fn seek<R: Threads + Sync, B: Disk, D: Door>(
    rt: &R,
    alloc: Global,
    broker: &str,
    patience: u32,
    node: &mut NodeCore,
    claims: &mut ClaimStore<B>,
    door: &mut D,
    tries: &mut Vec<Try<D::Link>>,
    count: u32,
) -> Result<Span, GrantFault>
    requires { 1 ≤ count }
    ensures { IsGrantOf (ports_of D.Link.state B.state broker.now patience) count result
        (desk node.old claims.old (D.state door.old) tries.old.items)
        (desk node.new claims.new (D.state door.new) tries.new.items) }
{
    if let Some(span) = node.draw(count) {
        return Ok(span);
    }
    'tries: for _ in 0..TRIES {
        try_once(
            rt, alloc, broker, patience, node, claims, door, tries, count,
        )?;
        if let Some(span) = node.draw(count) {
            return Ok(span);
        }
    }
    Err(GrantFault::NoBlock { wants: TRIES })
}
