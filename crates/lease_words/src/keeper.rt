// What keeps the ceiling that the words show.
ghost use Rattle.std.specs.Prelude.{◌≡◌, ℕ, OnOk};

use lease_journal::JournalFault;

/// Keeps ceilings: a journal on a disk. The journal's seat owns it, and a ceiling is shown only where it stores that one.
pub trait Keeper {
    ghost use Rattle.std.specs.Prelude.{ℕ, List, Result};
    ghost use Rattle.lease_journal.specs.declared.fault.JournalFault.{JournalFault};

    /// What it is called, all its life.
    ghost label: { Self → List ℕ };

    /// It stores this ceiling or a higher one, as it stands.
    ghost stores: { Self → ℕ → Type 0 };

    /// It may be asked to store this ceiling.
    ghost may: { Self → ℕ → Type 0 };

    /// What it becomes where it is asked to store this ceiling, and answers so.
    ghost moves: { Self → ℕ → Result (Unit {0}) JournalFault → Self → Type 0 };

    /// At each moment of a call that leads from the first to the second, this ceiling or a higher one is stored.
    ghost leaves: { Self → Self → ℕ → Type 0 };

    /// What it is called.
    fn name(&self) -> [u8; 32]
        ensures { result ≡ label self.now };

    /// Stores this ceiling, where it is `Ok`. What was stored before stays stored, whatever it answers, and is so at each
    /// moment meanwhile.
    fn store(&mut self, ceiling: u64) -> Result<(), JournalFault>
        requires { may self.old ceiling }
        ensures moves { moves self.old ceiling result self.new }
        ensures named { label self.new ≡ label self.old }
        ensures stored { OnOk result ((c : ℕ) → stores self.old c → stores self.new ceiling) }
        ensures keeps { (c : ℕ) → stores self.old c → stores self.new c }
        ensures moments { (c : ℕ) → stores self.old c → leaves self.old self.new c };
}
