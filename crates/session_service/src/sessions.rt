// What is led with whoever calls.
ghost use Rattle.std.specs.Prelude.{◌≡◌, ◌≤◌, ℕ, None, Some, Err, IfSome, MatchOption};
ghost use Rattle.std.specs.Thread.{IsSync};
ghost use Rattle.zk_model.specs.declared.limits.TheConstants.{MAX_UNITS};
ghost use Rattle.zk_port.specs.Doors.{IsFreshLink};
ghost use Rattle.session_pool.specs.Notes.{granted_by};
ghost use Rattle.session_verifier.specs.Outcomes.{grant_fault};

use lease_store::Grantor;
use session_pool::Session;
use session_verifier::{LogKeeper, SessionNote};
use std::alloc::Global;
use std::thread::Threads;
use zk_port::Link;

/// A verifier's sessions, each of which ends with its note: it leases units once at most, all of them at once.
pub trait Sessions<L: Link> {
    ghost use Rattle.std.specs.Prelude.{ℕ, List, Option, Result};
    ghost use Rattle.zk_model.specs.declared.Span.{Span};
    ghost use Rattle.lease_store.specs.declared.grantor.GrantFault.{GrantFault};
    ghost use Rattle.session_verifier.specs.declared.note.SessionNote.{SessionNote};

    /// How many units it leases, where it does: which session it is may show only once it is led, and its note tells.
    ghost size: { Self → SessionNote L → ℕ };

    /// The id of the file whose units it leases, and their total.
    ghost id: { Self → List ℕ };

    ghost total: { Self → ℕ };

    /// What a note says of a session that was answered so when it asked for units, if it asked.
    ghost is_note: { Self → Option (Result Span GrantFault) → SessionNote L → Type 0 };

    /// Leads one over a fresh link, which is ended then. It may have threads of its own.
    fn lead<R: Threads + Sync, T: Grantor>(
        &self,
        rt: &R,
        alloc: Global,
        grantor: &mut T,
        link: L,
    ) -> SessionNote<L>
        requires shared { IsSync R.row }
        requires fresh { IsFreshLink (L.state link) }
        requires once { T.answer grantor.old ≡ None }
        requires total { T.total grantor.old ≡ total self.now }
        requires may { (count : ℕ) → 1 ≤ count → count ≤ MAX_UNITS → T.may grantor.old count }
        ensures note { is_note self.now (T.answer grantor.new) result }
        ensures granted { result.granted ≡ granted_by (T.answer grantor.new) }
        ensures refused { IfSome (grant_fault result.outcome) (λ fault. T.answer grantor.new ≡ Some (Err fault)) }
        ensures moved { MatchOption (T.answer grantor.new) (grantor.new ≡ grantor.old)
            (λ answer. T.moves grantor.old (size self.now result) answer grantor.new) }
        ensures sized { IfSome (T.answer grantor.new)
            (λ _. (1 ≤ size self.now result) × (size self.now result ≤ MAX_UNITS)) };
}

/// Sessions of which one is told as they end.
#[derive(Drop)]
pub(crate) struct Kept<'a, S, K> {
    pub(crate) sessions: &'a S,
    pub(crate) keeper: &'a K,
}

impl<'a, L: Link + Drop, S: Sessions<L>, K: LogKeeper> Session<L> for Kept<'a, S, K> {
    ghost use Rattle.session_verifier.specs.Outcomes.{grant_fault};

    type Note = SessionNote<L>;

    ghost size = { λ k note. S.size k.sessions.now note };

    ghost id = { λ k. S.id k.sessions.now };

    ghost total = { λ k. S.total k.sessions.now };

    ghost is_note = { λ k answer note. S.is_note k.sessions.now answer note };

    ghost granted = { λ note. note.granted };

    ghost refused = { λ note. grant_fault note.outcome };

    fn lead<R: Threads + Sync, T: Grantor>(
        &self,
        rt: &R,
        alloc: Global,
        grantor: &mut T,
        link: L,
    ) -> SessionNote<L> {
        let note = self.sessions.lead(rt, alloc, grantor, link);
        self.keeper.keep(alloc, &note);
        note
    }
}
