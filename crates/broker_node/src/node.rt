// A node.
ghost use Rattle.std.specs.Prelude.{◌≡◌, ◌<◌, ◌≤◌, ◌-◌, ◌^◌, ℕ, List, true, false, Some, IsNone, IfSome, IfErr, OnOk};
ghost use Rattle.zk_port.specs.Disks.{LeavesOnly};
ghost use Rattle.zk_model.specs.declared.JournalKind.TheVariants.{Claims};
ghost use Rattle.lease_journal.specs.Keeps.{Keeps};
ghost use Rattle.lease_journal.specs.Twins.{HoldsTwin};
ghost use Rattle.claim_store.specs.Causes.{ClaimCause};
ghost use Rattle.claim_store.specs.Claims.{AreDurable, SaysOldOrNewClaims};
ghost use Rattle.broker_core.specs.Messages.{units_of};
ghost use Rattle.broker_core.specs.Nodes.{drawn_part, left_part, may_draw};
ghost use Rattle.broker_node.specs.NodeStates.{IsTakeOf, keeping, starting, takes_own};

use broker_core::{Node, takes};
use claim_store::{ClaimFault, ClaimStore};
use std::alloc::Global;
use std::marker::Model;
use zk_model::{Block, Span, Want};
use zk_port::Disk;

/// What a node keeps in memory: its number, its pending number, and what is left of its block.
#[derive(Debug, Drop)]
pub struct NodeCore {
    node: u32,
    own: Node,
}

impl Model for NodeCore {
    ghost use Rattle.broker_node.specs.NodeStates as model;

    ghost Value = { model.NodeState };

    ghost view = { λ n. record { node = n.node; own = n.own } };
}

impl NodeCore {
    /// A node as it starts: its first number is pending, and it holds no block.
    pub fn new(node: u32) -> NodeCore
        ensures { result ≡ starting node }
    {
        NodeCore {
            node,
            own: Node {
                number: 1,
                block: None,
            },
        }
    }

    /// The Want of its pending number.
    pub fn ask(&mut self, count: u32) -> Want
        ensures want { result ≡ record { node = self.old.node; number = self.old.own.number; count = count } }
        ensures kept { self.new ≡ self.old }
    {
        Want {
            node: self.node,
            number: self.own.number,
            count,
        }
    }

    /// Takes a Block, and says whether it did: it claims the units before any use, and holds them.
    ///
    /// # Errors
    ///
    /// Where they are not claimed. Then no block is held, and the next number is pending.
    pub fn take<B: Disk>(
        &mut self,
        alloc: Global,
        claims: &mut ClaimStore<B>,
        block: Block,
    ) -> Result<bool, ClaimFault>
        ensures taken { IsTakeOf self.old claims.old block result self.new claims.new }
        ensures cause { IfErr result (ClaimCause claims.old block.start block.count claims.new
            (B.state claims.old.disk).faults (B.state claims.new.disk).faults) }
        ensures durable { takes_own self.old block ≡ true → OnOk result
            (claims.old.total < 2 ^ 64 - 1 → AreDurable B.state claims.new) }
        ensures any_moment { takes_own self.old block ≡ true → claims.old.fault ≡ 0
            → claims.old.total < 2 ^ 64 - 1 → (bytes : List ℕ) → (B.state claims.old.disk).content ≡ Some bytes
            → LeavesOnly (B.state claims.old.disk) (B.state claims.new.disk) (SaysOldOrNewClaims
            claims.old.total claims.old.begin claims.old.slots claims.old.claims (units_of block)) }
        ensures holds { takes_own self.old block ≡ true → (id : List ℕ) (total : ℕ)
            → Keeps (HoldsTwin Claims id total claims.old.begin claims.old.slots)
            (B.state claims.old.disk) (B.state claims.new.disk) }
        ensures begin { claims.new.begin ≡ claims.old.begin }
        ensures slots { claims.new.slots ≡ claims.old.slots }
        ensures faults { OnOk result ((B.state claims.new.disk).faults ≡ (B.state claims.old.disk).faults) }
        ensures faults_grow { (B.state claims.old.disk).faults ≤ (B.state claims.new.disk).faults }
    {
        if self.node != block.node || !takes(self.own, block) {
            return Ok(false);
        }
        let number = self.own.number + 1;
        match claims.claim(alloc, block.start, block.count) {
            Ok(span) => {
                self.own = Node {
                    number,
                    block: Some(span),
                };
                Ok(true)
            }
            Err(fault) => {
                self.own = Node {
                    number,
                    block: None,
                };
                Err(fault)
            }
        }
    }

    /// Draws units of the block, where so many are left.
    pub fn draw(&mut self, count: u32) -> Option<Span>
        requires { 1 ≤ count }
        ensures none { IsNone result → may_draw self.old.own.block count ≡ false }
        ensures kept { IsNone result → self.new ≡ self.old }
        ensures some { IfSome result (λ s. may_draw self.old.own.block count ≡ true) }
        ensures drawn { IfSome result (λ s. IfSome self.old.own.block (λ block. s ≡ drawn_part block count)) }
        ensures left { IfSome result (λ s. IfSome self.old.own.block (λ block.
            self.new ≡ keeping self.old (Some (left_part block count)))) }
    {
        let Some(block) = self.own.block else {
            return None;
        };
        if u64::from(count) > block.end.saturating_sub(block.start) {
            return None;
        }
        let end = block.start + u64::from(count);
        self.own.block = Some(Span {
            start: end,
            end: block.end,
        });
        Some(Span {
            start: block.start,
            end,
        })
    }
}
