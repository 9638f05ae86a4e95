// What all workers of one run agree on.
ghost use Rattle.std.specs.Prelude.{ℕ};

use std::marker::Brand;
use std::sync::ledger::Ledger;

/// Names one run of a door: the door as it was at the start, and how many sessions are wanted.
pub(crate) trait Run: Ledger {
    ghost use Rattle.std.specs.Prelude.{ℕ};
    ghost use Rattle.zk_port.specs.Doors.{DoorState};

    ghost first: { DoorState };

    ghost sessions: { ℕ };
}

/// The same with what is served: what its notes say, how many units each session leases, and whether no pass had drawn.
pub(crate) trait Shift<M>: Run {
    ghost use Rattle.std.specs.Prelude.{ℕ, Option};
    ghost use Rattle.zk_model.specs.declared.Span.{Span};
    ghost use Rattle.lease_store.specs.declared.grantor.GrantFault.{GrantFault};

    ghost is_note: { M → Type 0 };

    ghost granted: { M → Option Span };

    ghost refused: { M → Option GrantFault };

    ghost size: { M → ℕ };

    ghost fresh: { Type 0 };
}

impl Run for Brand {
    ghost use Rattle.std.specs.Prelude.{ℕ};
    ghost use Rattle.session_pool.specs.Doors.{no_door};

    ghost first = { no_door };

    ghost sessions = { 0 };
}

impl<M> Shift<M> for Brand {
    ghost use Rattle.std.specs.Prelude.{ℕ, None};

    ghost is_note = { λ _. Unit {0} };

    ghost granted = { λ _. None };

    ghost refused = { λ _. None };

    ghost size = { λ _. 1 };

    ghost fresh = { Unit {0} };
}
