// Which wires are set.
ghost use Rattle.std.specs.Prelude.{◌≡◌, ◌<◌, ◌≤◌, IfOk, length, set, true};
ghost use Rattle.bristol_reader.specs.Gates.{flag_of};
ghost use Rattle.bristol_reader.specs.Bodies.{AreFirstFlags};

use std::alloc::{AllocError, Global};
use std::marker::Model;

/// Which wires are set, by a flag of each. All wires below the mark are set, and their flags need not be looked up: it
/// rises where the wire at it is set, and most circuits set their wires in order.
#[derive(Drop)]
pub struct SetWires {
    flags: Vec<bool>,
    mark: usize,
}

impl Model for SetWires {
    ghost use Rattle.std.specs.Prelude.{List, Bool};
    ghost use Rattle.bristol_reader.specs.Gates.{AreSetBelow};

    ghost Value = { List Bool };

    ghost view = { λ s. s.flags.items };

    ghost invariant = { λ s. AreSetBelow s.flags.items s.mark };
}

impl SetWires {
    /// The wires before any gate: the inputs are set.
    pub fn of_inputs(alloc: Global, wires: u32, inputs: u32) -> Result<SetWires, AllocError>
        requires { inputs ≤ wires }
        ensures { IfOk result (λ set. AreFirstFlags set wires inputs) }
    {
        let mark = inputs as usize;
        let mut flags = Vec::new(alloc);
        flags.resize(mark, true)?;
        flags.resize(wires as usize, false)?;
        Ok(SetWires { flags, mark })
    }

    /// How many wires there are.
    #[inline(always)]
    pub fn len(&self) -> usize
        ensures { result ≡ length self.now }
    {
        self.flags.len()
    }

    /// Whether a wire is set, of those that there are.
    #[inline(always)]
    pub fn contains(&self, wire: u32) -> bool
        ensures { result ≡ flag_of self.now wire }
    {
        let wire = wire as usize;
        wire < self.mark || (wire < self.flags.len() && self.flags[wire])
    }

    /// Sets a wire.
    #[inline(always)]
    pub fn insert(&mut self, wire: u32)
        requires { wire < length self.old }
        ensures { self.new ≡ set self.old wire true }
    {
        let wire = wire as usize;
        self.flags[wire] = true;
        if wire == self.mark {
            self.mark += 1;
        }
    }

    /// The flags, wire by wire.
    pub fn as_slice(&self) -> &[bool]
        ensures { result.now ≡ self.now }
    {
        &self.flags
    }
}
