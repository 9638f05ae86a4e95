// What nodes do.
ghost use Rattle.std.specs.Prelude.{◌≡◌, ◌^◌, ◌≤◌, ◌++◌, ◌∷◌, [], ◌&&◌, cond, nat_lt, length, slice_set, Some, None, IfOk, OnErr};
ghost use Rattle.broker_core.specs.Messages.{units_of};
ghost use Rattle.broker_core.specs.Nodes.{claims_taken, first_node, has_claimed, may_claim, may_cut, next_node, node_at, nodes_taken, takes};

use crate::message::{Node, NodeClaim};
use std::alloc::AllocError;
use zk_model::{Block, Span};

/// A node as it starts.
pub(crate) const FIRST: Node = Node {
    number: 1,
    block: None,
};

/// Whether the node takes the Block: its number is the pending one, which is not the last that there is, and it has units.
pub fn takes(node: Node, block: Block) -> bool
    ensures { result ≡ takes node block }
{
    node.number == block.number && node.number != u64::MAX && block.count != 0
}

/// Whether claims of the node have a unit of the span.
fn has_claimed(claims: &[NodeClaim], node: u32, span: Span) -> bool
    ensures { result ≡ has_claimed claims.now node span }
{
    claims.iter().any(|c| c.node == node && c.span.start < span.end && span.start < c.span.end)
}

/// The units of a Block, where their claim is Ok.
fn to_claim(total: u64, claims: &[NodeClaim], block: Block) -> Option<Span>
    requires { total ≤ 2 ^ 40 }
    ensures { result ≡ cond (may_claim total claims.now block) (Some (units_of block)) None }
{
    let Block {
        node,
        start,
        count,
        ..
    } = block;
    if start > total {
        return None;
    }
    let end = start + u64::from(count);
    let span = Span { start, end };
    if end > total || has_claimed(claims, node, span) {
        return None;
    }
    Some(span)
}

/// A Block comes to a node, which takes it or not, claims its units or is refused, and holds them; or there is no such node.
pub(crate) fn deliver(
    total: u64,
    nodes: &mut Vec<Node>,
    claims: &mut Vec<NodeClaim>,
    block: Block,
) -> Result<bool, AllocError>
    requires { total ≤ 2 ^ 40 }
    ensures there { IfOk result (λ b. b ≡ nat_lt block.node (length nodes.old.items)) }
    ensures nodes { IfOk result (λ b. nodes.new.items
        ≡ cond b (nodes_taken total claims.old.items nodes.old.items block) nodes.old.items) }
    ensures claims { IfOk result (λ b. claims.new.items
        ≡ cond b (claims_taken total claims.old.items nodes.old.items block) claims.old.items) }
    ensures refused { OnErr result
        ((nodes.new.items ≡ nodes.old.items) × (claims.new.items ≡ claims.old.items)) }
{
    let Some(node) = nodes.get(block.node as usize) else {
        return Ok(false);
    };
    if !takes(*node, block) {
        return Ok(true);
    }
    let number = node.number;
    let Some(span) = to_claim(total, claims, block) else {
        nodes[block.node as usize] = Node {
            number: number + 1,
            block: None,
        };
        return Ok(true);
    };
    let claim = NodeClaim {
        node: block.node,
        span,
    };
    claims.push(claim)?;
    nodes[block.node as usize] = Node {
        number: number + 1,
        block: Some(span),
    };
    Ok(true)
}

/// A Block comes to a node that takes it and may claim its units; the claim is cut short, and kept or not. The node then holds nothing, and
/// its pending number is the next one, or the first after a crash.
pub(crate) fn cut_short(
    total: u64,
    nodes: &mut Vec<Node>,
    claims: &mut Vec<NodeClaim>,
    block: Block,
    kept: bool,
    crashed: bool,
) -> Result<bool, AllocError>
    requires { total ≤ 2 ^ 40 }
    ensures there { IfOk result (λ b. b ≡ may_cut total claims.old.items nodes.old.items block) }
    ensures nodes { IfOk result (λ b. nodes.new.items ≡ cond b (slice_set nodes.old.items block.node
        (cond crashed first_node (next_node (node_at nodes.old.items block.node) None))) nodes.old.items) }
    ensures claims { IfOk result (λ b. claims.new.items ≡ cond (b && kept)
        (claims.old.items ++ (record { node = block.node; span = units_of block }) ∷ []) claims.old.items) }
    ensures refused { OnErr result
        ((nodes.new.items ≡ nodes.old.items) × (claims.new.items ≡ claims.old.items)) }
{
    let Some(node) = nodes.get(block.node as usize) else {
        return Ok(false);
    };
    if !takes(*node, block) {
        return Ok(false);
    }
    let number = node.number;
    let Some(span) = to_claim(total, claims, block) else {
        return Ok(false);
    };
    let next = if crashed {
        FIRST
    } else {
        Node {
            number: number + 1,
            block: None,
        }
    };
    if kept {
        claims.push(NodeClaim {
            node: block.node,
            span,
        })?;
        nodes[block.node as usize] = next;
        return Ok(true);
    }
    nodes[block.node as usize] = next;
    Ok(true)
}
