// What is led over a link.
ghost use Rattle.std.specs.Prelude.{◌≡◌, ◌≤◌, ℕ, None, Some, Err, IfSome, MatchOption};
ghost use Rattle.std.specs.Thread.{IsSync};
ghost use Rattle.zk_model.specs.declared.limits.TheConstants.{MAX_UNITS};
ghost use Rattle.zk_port.specs.Doors.{IsFreshLink};

use lease_store::Grantor;
use std::alloc::Global;
use std::thread::Threads;
use zk_port::Link;

/// What is led over each link of a door: a session that leases units once at most, all of them at once, and of which a note is made.
pub trait Session<L: Link> {
    ghost use Rattle.std.specs.Prelude.{ℕ, List, Option, Result};
    ghost use Rattle.zk_model.specs.declared.Span.{Span};
    ghost use Rattle.lease_store.specs.declared.grantor.GrantFault.{GrantFault};
    ghost use Rattle.session_pool.specs.Notes.{granted_by};

    /// What came of it.
    type Note: Drop;

    /// How many units it leases, where it does: which session it is may show only once it is led, and its note tells.
    ghost size: { Self → Self.Note → ℕ };

    /// The id of the file whose units it leases, and their total.
    ghost id: { Self → List ℕ };

    ghost total: { Self → ℕ };

    /// What a note says of a session that was answered so when it asked for units, if it asked.
    ghost is_note: { Self → Option (Result Span GrantFault) → Self.Note → Type 0 };

    /// The units that were granted, if any were.
    ghost granted: { Self.Note → Option Span };

    /// Why none were, where the session ended by that.
    ghost refused: { Self.Note → Option GrantFault };

    /// Leads it over a fresh link, which is ended then. It may have threads of its own.
    fn lead<R: Threads + Sync, T: Grantor>(
        &self,
        rt: &R,
        alloc: Global,
        grantor: &mut T,
        link: L,
    ) -> Self::Note
        requires shared { IsSync R.row }
        requires fresh { IsFreshLink (L.state link) }
        requires once { T.answer grantor.old ≡ None }
        requires total { T.total grantor.old ≡ total self.now }
        requires may { (count : ℕ) → 1 ≤ count → count ≤ MAX_UNITS → T.may grantor.old count }
        ensures note { is_note self.now (T.answer grantor.new) result }
        ensures granted { granted result ≡ granted_by (T.answer grantor.new) }
        ensures refused { IfSome (refused result) (λ fault. T.answer grantor.new ≡ Some (Err fault)) }
        ensures moved { MatchOption (T.answer grantor.new) (grantor.new ≡ grantor.old)
            (λ answer. T.moves grantor.old (size self.now result) answer grantor.new) }
        ensures sized { IfSome (T.answer grantor.new)
            (λ _. (1 ≤ size self.now result) × (size self.now result ≤ MAX_UNITS)) };
}
