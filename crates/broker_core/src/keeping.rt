// What the broker keeps.
ghost use Rattle.std.specs.Prelude.{◌≡◌, ◌<◌, length, replicate, slice_set, None, Some, option_map, IfOk};
ghost use Rattle.broker_core.specs.Leases.{kept_of};

use crate::message::Kept;
use std::alloc::{AllocError, Global};
use std::marker::Model;
use zk_model::Span;

/// The number and the span of each node's last Want that was granted. Contracts see of it the list of these, by node.
#[derive(Debug, Drop)]
pub struct BrokerCore {
    kept: Vec<Option<Kept>>,
}

impl Model for BrokerCore {
    ghost use Rattle.std.specs.Prelude.{List, Option};
    ghost use Rattle.broker_core.specs.declared.message.Kept as model;

    ghost Value = { List (Option model.Kept) };

    ghost view = { λ c. c.kept.items };
}

impl BrokerCore {
    /// Nothing is kept of any of so many nodes.
    ///
    /// # Errors
    ///
    /// Only where memory runs out.
    pub fn new(alloc: Global, nodes: u32) -> Result<BrokerCore, AllocError>
        ensures { IfOk result (λ core. core ≡ replicate nodes None) }
    {
        Ok(BrokerCore {
            kept: Vec::from_elem(alloc, None, nodes as usize)?,
        })
    }

    /// What is kept of a node since `new`.
    pub fn last(&self, node: u32) -> Option<(u64, Span)>
        ensures { result ≡ option_map (λ k. (k.number, k.span)) (kept_of self.now node) }
    {
        match self.kept.get(node as usize) {
            Some(Some(kept)) => Some((kept.number, kept.span)),
            _ => None,
        }
    }

    /// A node's Want of this number was granted this span.
    pub fn keep(&mut self, node: u32, number: u64, span: Span)
        requires { node < length self.old }
        ensures { self.new ≡ slice_set self.old node (Some (record { number = number; span = span })) }
    {
        self.kept[node as usize] = Some(Kept { number, span });
    }

    /// Nothing is kept any more, as after a crash.
    pub(crate) fn forget(&mut self)
        ensures { self.new ≡ replicate (length self.old) None }
    {
        self.kept.as_mut_slice().fill(None);
    }
}
