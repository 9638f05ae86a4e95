// Who answers the want of one link.
ghost use Rattle.std.specs.Prelude.{◌≡◌, length};
ghost use Rattle.lease_store.specs.Leases.{IsPassAt};
ghost use Rattle.zk_model.specs.declared.limits.TheConstants.{MAX_NODES};
ghost use Rattle.zk_port.specs.Doors.{IsFreshLink};
ghost use Rattle.broker_service.specs.Turns.{IsNoteStep, keeping, said_to_node};

use broker_core::BrokerCore;
use broker_links::{Answerer, BrokerNote, Reply, answer_want};
use broker_node::broker_step;
use lease_store::{LeaseFault, LeaseName, LeaseStore};
use lease_words::Pass;
use std::alloc::Global;
use std::sync::Wait;
use std::thread::Threads;
use zk_model::Want;
use zk_port::{Disk, Link};

/// Answers one want by the broker's step, with a core and a pass that are lent, and waits where the store does by the handle that it holds.
struct Lender<'a, 'p, B: Disk, N: LeaseName, R: Wait> {
    rt: &'a R,
    core: &'p mut BrokerCore,
    store: &'a LeaseStore<B, N>,
    pass: &'p mut Pass,
    asked: Option<Want>,
    answer: Option<Result<Reply, LeaseFault>>,
}

/// The broker's reply, as it is sent.
fn said_to_node(answer: Result<broker_node::Reply, LeaseFault>) -> Result<Reply, LeaseFault>
    ensures { result ≡ said_to_node answer }
{
    match answer {
        Ok(broker_node::Reply::Block(block)) => Ok(Reply::Block(block)),
        Ok(broker_node::Reply::Out(out)) => Ok(Reply::Out(out)),
        Err(fault) => Err(fault),
    }
}

impl<'a, 'p, B: Disk, N: LeaseName, R: Wait> Answerer for Lender<'a, 'p, B, N, R> {
    ghost use Rattle.std.specs.Prelude.{◌≡◌, length};
    ghost use Rattle.zk_model.specs.Messages.{FitsWant};
    ghost use Rattle.zk_model.specs.declared.limits.TheConstants.{MAX_NODES};
    ghost use Rattle.lease_store.specs.Leases.{IsPassAt};
    ghost use Rattle.broker_service.specs.Turns.{IsReplyStep, keeping};

    type Fault = LeaseFault;

    ghost asked = { λ l. l.asked };

    ghost answer = { λ l. l.answer };

    ghost may = { λ l want. FitsWant want × IsPassAt N.table N.total l.pass.now
        × (length l.core.now ≡ MAX_NODES) };

    ghost moves = { λ l want answer m. (m.pass.ghost_name ≡ l.pass.ghost_name)
        × (m.core.ghost_name ≡ l.core.ghost_name)
        × IsPassAt N.table N.total m.pass.now × (length m.core.now ≡ MAX_NODES)
        × IsReplyStep B.state want answer (keeping l.core.now l.pass.now) (keeping m.core.now m.pass.now) };

    fn reply(&mut self, want: Want) -> Result<Reply, LeaseFault> {
        let answer = said_to_node(broker_step(
            self.rt,
            &mut *self.core,
            self.store,
            &mut *self.pass,
            want,
        ));
        self.asked = Some(want);
        self.answer = Some(answer);
        answer
    }
}

/// Answers the want of the node at the other end of a fresh link.
pub(crate) fn answer_one<R: Threads + Wait + Sync, B: Disk, N: LeaseName, L: Link>(
    rt: &R,
    alloc: Global,
    core: &mut BrokerCore,
    store: &LeaseStore<B, N>,
    pass: &mut Pass,
    link: L,
) -> BrokerNote<L, LeaseFault>
    requires nodes { length core.old ≡ MAX_NODES }
    requires own { IsPassAt N.table N.total pass.old }
    requires fresh { IsFreshLink (L.state link) }
    ensures nodes { length core.new ≡ MAX_NODES }
    ensures own { IsPassAt N.table N.total pass.new }
    ensures step { IsNoteStep L.state B.state result (keeping core.old pass.old) (keeping core.new pass.new) }
{
    let mut lender = Lender {
        rt,
        core,
        store,
        pass,
        asked: None,
        answer: None,
    };
    let note = answer_want(rt, alloc, &mut lender, link);
    let Lender {
        rt: _,
        core: _,
        store: _,
        pass: _,
        asked: _,
        answer: _,
    } = lender;
    note
}
