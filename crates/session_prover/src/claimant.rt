// Who claims units for a session.
ghost use Rattle.std.specs.Prelude.{◌≡◌, ◌+◌, ◌≤◌, None, Some, IfOk};

use claim_store::ClaimFault;
use zk_model::Span;

/// Claims units, once: it is made for one session.
pub trait Claimant {
    ghost use Rattle.std.specs.Prelude.{ℕ, Option, Result};
    ghost use Rattle.zk_model.specs.declared.Span.{Span};
    ghost use Rattle.claim_store.specs.declared.ClaimFault.{ClaimFault};

    /// The first unit and the count that it was asked for, once it was.
    ghost asked: { Self → Option (ℕ × ℕ) };

    /// What it answered, once it was asked.
    ghost answer: { Self → Option (Result Span ClaimFault) };

    /// The total of the units that it claims from.
    ghost total: { Self → ℕ };

    /// What it becomes where it is asked for so many units from this one on, and answers so.
    ghost moves: { Self → ℕ → ℕ → Result Span ClaimFault → Self → Type 0 };

    /// Claims so many units from this one on, which end at or below the total, or says why not.
    fn claim(&mut self, start: u64, count: u32) -> Result<Span, ClaimFault>
        requires once { answer self.old ≡ None }
        requires at_least_one { 1 ≤ count }
        ensures asked { asked self.new ≡ Some (start, count) }
        ensures told { answer self.new ≡ Some result }
        ensures start { IfOk result (λ span. span.start ≡ start) }
        ensures end { IfOk result (λ span. span.end ≡ start + count) }
        ensures within { IfOk result (λ span. span.end ≤ total self.old) }
        ensures total { total self.new ≡ total self.old }
        ensures moves { moves self.old start count result self.new };
}
