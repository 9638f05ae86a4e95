// Which calls of an object in memory fail, and which find no memory.
ghost use Rattle.std.specs.Prelude.{◌≡◌, ◌≤◌, ◌+◌, ℕ, Bool, true, false, not};
ghost use Rattle.zk_port.specs.Counts.{counted};

use std::marker::Model;

/// Says of each call of an object in memory whether it fails or finds no memory, and counts those that fail.
pub trait FaultPlan {
    /// How many calls have failed; a count that has reached the end of a `u64` stands still there.
    ghost count: { Self → ℕ };

    /// Whether the call after so many further ones is to fail: at 0 the next.
    ghost coming: { Self → ℕ → Bool };

    /// Whether the next call finds no memory, unless it fails.
    ghost lacking: { Self → Bool };

    /// Whether the call under way finds no memory.
    ghost lacks_now: { Self → Bool };

    /// Whether what isn't there is read as empty, since nothing may fail.
    ghost forgiving: { Bool };

    /// How many calls have failed.
    fn faults(&self) -> u64
        ensures { result ≡ count self.now };

    /// Begins a call, which uses up one number, and says whether it fails.
    fn fails(&mut self) -> bool
        ensures answer { result ≡ coming self.old 0 }
        ensures onward { (n : ℕ) → coming self.new n ≡ coming self.old (n + 1) }
        ensures lacks { lacks_now self.new ≡ lacking self.old }
        ensures count { count self.new ≡ counted result (count self.old) }
        ensures count_grows { count self.old ≤ count self.new };

    /// Whether the call under way finds no memory; it uses up no number.
    fn lacks(&self) -> bool
        ensures { result ≡ lacks_now self.now };

    /// Whether the call under way fails because something isn't there; it uses up no number.
    fn fails_without(&mut self) -> bool
        ensures forgiving { result ≡ not forgiving }
        ensures onward { (n : ℕ) → coming self.new n ≡ coming self.old n }
        ensures count { count self.new ≡ counted result (count self.old) }
        ensures count_grows { count self.old ≤ count self.new };
}

/// Whether a call failed, which is counted.
fn noted(faults: &mut u64, failed: bool) -> bool
    ensures answer { result ≡ failed }
    ensures count { faults.new ≡ counted failed faults.old }
    ensures grows { faults.old ≤ faults.new }
{
    if failed {
        *faults = faults.saturating_add(1);
    }
    failed
}

/// The calls of these numbers fail, counted from 1, and those that ask for what isn't there. One of another number finds no memory, or
/// none does where that number is 0.
#[derive(Drop)]
pub struct FailAt {
    numbers: Vec<u64>,
    lacking: u64,
    calls: u64,
    faults: u64,
}

impl Model for FailAt {
    ghost use Rattle.memory_ports.specs.Plans.{Schedule};

    ghost Value = { Schedule };

    ghost view = { λ p. record {
      numbers = p.numbers.items;
      lacking = p.lacking;
      calls = p.calls;
      faults = p.faults;
    } };
}

impl FailAt {
    /// A plan under which nothing has been called yet, and memory is not missing.
    pub fn new(numbers: Vec<u64>) -> Self
        ensures numbers { result.numbers ≡ numbers.items }
        ensures lacking { result.lacking ≡ 0 }
        ensures calls { result.calls ≡ 0 }
        ensures faults { result.faults ≡ 0 }
    {
        FailAt::with_lack(numbers, 0)
    }

    /// A plan under which nothing has been called yet, and the call of number `lacking` finds no memory.
    pub fn with_lack(numbers: Vec<u64>, lacking: u64) -> Self
        ensures numbers { result.numbers ≡ numbers.items }
        ensures lacking { result.lacking ≡ lacking }
        ensures calls { result.calls ≡ 0 }
        ensures faults { result.faults ≡ 0 }
    {
        FailAt {
            numbers,
            lacking,
            calls: 0,
            faults: 0,
        }
    }
}

impl FaultPlan for FailAt {
    ghost use Rattle.std.specs.Prelude.{◌==◌};
    ghost use Rattle.memory_ports.specs.Plans.{is_to_fail, is_to_lack};

    ghost count = { λ p. p.faults };

    ghost coming = { is_to_fail };

    ghost lacking = { is_to_lack };

    ghost lacks_now = { λ p. p.lacking == p.calls };

    ghost forgiving = { false };

    fn faults(&self) -> u64 {
        self.faults
    }

    fn fails(&mut self) -> bool {
        self.calls = self.calls.saturating_add(1);
        noted(&mut self.faults, self.numbers.contains(&self.calls))
    }

    fn lacks(&self) -> bool {
        self.lacking == self.calls
    }

    fn fails_without(&mut self) -> bool {
        self.faults = self.faults.saturating_add(1);
        true
    }
}

/// Nothing fails.
#[derive(Clone, Copy)]
pub struct NoFault;

impl FaultPlan for NoFault {
    ghost count = { λ _. 0 };

    ghost coming = { λ _ _. false };

    ghost lacking = { λ _. false };

    ghost lacks_now = { λ _. false };

    ghost forgiving = { true };

    fn faults(&self) -> u64 {
        0
    }

    fn fails(&mut self) -> bool {
        false
    }

    fn lacks(&self) -> bool {
        false
    }

    fn fails_without(&mut self) -> bool {
        false
    }
}
