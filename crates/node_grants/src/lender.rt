// What a node lends to a session.
ghost use Rattle.std.specs.Prelude.{◌≡◌, ◌≤◌, None, IfOk};
ghost use Rattle.zk_model.specs.declared.limits.TheConstants.{MAX_UNITS};
ghost use Rattle.node_grants.specs.Desks.{IsHeldWithin, desk};
ghost use Rattle.node_grants.specs.Grants.{IsGrantOf, ports_of};

use crate::seeking::seek;
use broker_links::Try;
use broker_node::NodeCore;
use claim_store::ClaimStore;
use lease_store::{GrantFault, Grantor};
use std::alloc::Global;
use std::thread::Threads;
use zk_model::Span;
use zk_port::{Disk, Door};

/// Grants units of a node's block, once, and asks the broker at an address where too few are left. Each try that it makes is
/// pushed to a list. A link to the broker on which nothing passes for as many seconds as the patience has fails.
pub struct NodeLender<'r, 'b, 'n, 'c, 'd, 't, R: Threads + Sync, B: Disk, D: Door> {
    pub rt: &'r R,
    pub alloc: Global,
    pub broker: &'b str,
    pub patience: u32,
    pub node: &'n mut NodeCore,
    pub claims: &'c mut ClaimStore<B>,
    pub door: &'d mut D,
    pub tries: &'t mut Vec<Try<D::Link>>,
    pub asked: Option<u32>,
    pub answer: Option<Result<Span, GrantFault>>,
}

impl<'r, 'b, 'n, 'c, 'd, 't, R: Threads + Sync, B: Disk, D: Door> Grantor
    for NodeLender<'r, 'b, 'n, 'c, 'd, 't, R, B, D> {
    ghost use Rattle.std.specs.Prelude.{◌≡◌, ◌≤◌};
    ghost use Rattle.std.specs.Thread.{IsSync};
    ghost use Rattle.zk_model.specs.declared.limits.TheConstants.{MAX_UNITS};
    ghost use Rattle.node_grants.specs.Desks.{IsHeldWithin, desk};
    ghost use Rattle.node_grants.specs.Grants.{IsGrantOf, ports_of};

    ghost answer = { λ l. l.answer };

    ghost asked = { λ l. l.asked };

    ghost total = { λ l. l.claims.now.total };

    ghost may = { λ l count. IsSync R.row × IsHeldWithin l.node.now l.claims.now.total
        × (1 ≤ count) × (count ≤ MAX_UNITS) };

    ghost moves = { λ l count answer m. (m.node.ghost_name ≡ l.node.ghost_name)
        × (m.claims.ghost_name ≡ l.claims.ghost_name) × (m.door.ghost_name ≡ l.door.ghost_name)
        × (m.tries.ghost_name ≡ l.tries.ghost_name)
        × IsGrantOf (ports_of D.Link.state B.state l.broker.now l.patience) count answer
        (desk l.node.now l.claims.now (D.state l.door.now) l.tries.now.items)
        (desk m.node.now m.claims.now (D.state m.door.now) m.tries.now.items) };

    fn grant(&mut self, count: u32) -> Result<Span, GrantFault> {
        let answer = seek(
            self.rt,
            self.alloc,
            self.broker,
            self.patience,
            &mut *self.node,
            &mut *self.claims,
            &mut *self.door,
            &mut *self.tries,
            count,
        );
        self.asked = Some(count);
        self.answer = Some(answer);
        answer
    }
}
