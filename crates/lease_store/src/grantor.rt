// Who leases units to sessions.
ghost use Rattle.lease_store.specs.declared.grantor.GrantFault.TheVariants as grant;
ghost use Rattle.std.specs.Prelude.{◌≡◌, ◌+◌, ◌≤◌, None, Some, IfOk};

use crate::LeaseFault;
use thiserror::Error;
use zk_model::Span;

/// Why a session is granted no units.
#[derive(Clone, Copy, Debug, PartialEq, Eq, Error)]
pub enum GrantFault {
    /// The store of leases, or of claims, refused them.
    #[error("{0}")]
    Lease(LeaseFault),
    /// Memory was missing.
    #[error("memory is missing")]
    NoMemory,
    /// So many wants brought no block with enough units.
    #[error("{wants} wants brought no block of enough units")]
    NoBlock { wants: u32 },
    /// The broker of units was not reached, or a link to it failed.
    #[error("the broker was not reached, or a link to it failed")]
    Broker,
}

impl From<LeaseFault> for GrantFault {
    ghost from_gives = { λ fault o. o ≡ grant.Lease fault };

    fn from(fault: LeaseFault) -> Self {
        GrantFault::Lease(fault)
    }
}

/// Leases units, once: it is made for one session.
pub trait Grantor {
    ghost use Rattle.std.specs.Prelude.{ℕ, Option, Result};
    ghost use Rattle.zk_model.specs.declared.Span.{Span};
    ghost use Rattle.lease_store.specs.declared.grantor.GrantFault.{GrantFault};

    /// What it answered, once it was asked.
    ghost answer: { Self → Option (Result Span GrantFault) };

    /// How many units it was asked for, once it was.
    ghost asked: { Self → Option ℕ };

    /// The total of the units that it leases from.
    ghost total: { Self → ℕ };

    /// Whether it may be asked for so many units.
    ghost may: { Self → ℕ → Type 0 };

    /// What it becomes where it is asked for so many units, and answers so.
    ghost moves: { Self → ℕ → Result Span GrantFault → Self → Type 0 };

    /// Leases so many units in a row that end at or below the total, or says why not.
    fn grant(&mut self, count: u32) -> Result<Span, GrantFault>
        requires once { answer self.old ≡ None }
        requires may { may self.old count }
        ensures told { answer self.new ≡ Some result }
        ensures asked { asked self.new ≡ Some count }
        ensures counted { IfOk result (λ span. span.end ≡ span.start + count) }
        ensures within { IfOk result (λ span. span.end ≤ total self.old) }
        ensures total { total self.new ≡ total self.old }
        ensures moves { moves self.old count result self.new };
}
