// A pass that is lent to one session.
ghost use Rattle.std.specs.Prelude.{◌≡◌, None};
ghost use Rattle.zk_port.specs.Doors.{IsFreshLink};
ghost use Rattle.lease_store.specs.Leases.{PassGoesOn, IsPassAt};
ghost use Rattle.session_pool.specs.Notes.{IsSessionServed};

use crate::session::Session;
use lease_store::{GrantFault, Grantor, LeaseName, LeaseStore};
use lease_words::Pass;
use std::alloc::Global;
use std::sync::Wait;
use std::thread::Threads;
use zk_model::Span;
use zk_port::{Disk, Link};

/// Leases from a store, once, with a pass that is lent, and waits where the store does by the handle that it holds.
pub(crate) struct Lender<'a, 'p, B: Disk, N: LeaseName, R: Wait> {
    pub(crate) rt: &'a R,
    pub(crate) store: &'a LeaseStore<B, N>,
    pub(crate) pass: &'p mut Pass,
    pub(crate) asked: Option<u32>,
    pub(crate) answer: Option<Result<Span, GrantFault>>,
}

impl<'a, 'p, B: Disk, N: LeaseName, R: Wait> Grantor for Lender<'a, 'p, B, N, R> {
    ghost use Rattle.std.specs.Prelude.{◌≡◌, ◌≤◌};
    ghost use Rattle.lease_store.specs.Leases.{IsPassAt, PassGoesOn};
    ghost use Rattle.session_pool.specs.Notes.{LeasedAs};
    ghost use Rattle.zk_model.specs.declared.limits.TheConstants.{MAX_UNITS};

    ghost answer = { λ l. l.answer };

    ghost asked = { λ l. l.asked };

    ghost total = { λ l. N.total };

    ghost may = { λ l count. IsPassAt N.table N.total l.pass.now × (1 ≤ count) × (count ≤ MAX_UNITS) };

    ghost moves = { λ l count answer m. (m.pass.ghost_name ≡ l.pass.ghost_name)
        × IsPassAt N.table N.total m.pass.now × PassGoesOn l.pass.now m.pass.now
        × LeasedAs l.pass.now count answer m.pass.now };

    fn grant(&mut self, count: u32) -> Result<Span, GrantFault> {
        let leased = self.store.lease(self.rt, &mut *self.pass, count);
        let answer = leased.map_err(GrantFault::from);
        self.asked = Some(count);
        self.answer = Some(answer);
        answer
    }
}

/// The session over a fresh link, with units that are leased by the pass where the session asks for them.
pub fn serve_one<S, L, B, N, R>(
    rt: &R,
    alloc: Global,
    session: &S,
    store: &LeaseStore<B, N>,
    pass: &mut Pass,
    link: L,
) -> S::Note
where
    S: Session<L>,
    L: Link,
    B: Disk,
    N: LeaseName,
    R: Threads + Wait + Sync,
    requires own { IsPassAt N.table N.total pass.old }
    requires total { N.total ≡ S.total session.now }
    requires fresh { IsFreshLink (L.state link) }
    ensures own { IsPassAt N.table N.total pass.new }
    ensures goes { PassGoesOn pass.old pass.new }
    ensures served { IsSessionServed (S.is_note session.now) S.granted S.refused (S.size session.now)
        result pass.old pass.new }
{
    let mut lender = Lender {
        rt,
        store,
        pass,
        asked: None,
        answer: None,
    };
    let note = session.lead(rt, alloc, &mut lender, link);
    let Lender {
        rt: _,
        store: _,
        pass: _,
        asked: _,
        answer: _,
    } = lender;
    note
}
