// The numbers that a circuit is drawn from.
ghost use Rattle.std.specs.Prelude.{◌≡◌, ◌<◌, ◌≤◌, IfOk, OnOk};
ghost use Rattle.circuit_gen.specs.Generated.{next_state, state_after, generated_bits, drawn_gate, drawn_wire};
ghost use Rattle.zk_model.specs.Circuit.{wire_set};
ghost use Rattle.circuit_gen.specs.Lines.{ReadsEarlier};

use crate::INPUTS;
use std::alloc::{AllocError, Global};
use zk_model::GateRow;

/// The state of a linear congruential generator modulo 2^64, whose constants are those of Knuth's MMIX.
#[derive(Drop)]
pub struct Draws {
    state: u64,
}

impl Draws {
    /// The draws that begin at a number.
    pub fn new(number: u64) -> Draws
        ensures { result.state ≡ number }
    {
        Draws { state: number }
    }

    /// The next draw.
    fn next(&mut self) -> u64
        ensures draw { result ≡ next_state self.old.state }
        ensures state { self.new.state ≡ result }
    {
        self.state = self
            .state
            .wrapping_mul(6_364_136_223_846_793_005)
            .wrapping_add(1_442_695_040_888_963_407);
        self.state
    }

    /// The input bits: the highest bits of the first draws.
    pub fn bits(&mut self, alloc: Global) -> Result<Vec<bool>, AllocError>
        ensures bits { IfOk result (λ bits. bits.items ≡ generated_bits self.old.state) }
        ensures state { OnOk result (self.new.state ≡ state_after self.old.state 64) }
    {
        let mut bits = Vec::new(alloc);
        for _i in 0..INPUTS {
            bits.push(self.next() >= 1 << 63)?;
        }
        Ok(bits)
    }

    /// One of so many wires.
    fn wire(&mut self, wires: u32) -> u32
        requires { 0 < wires }
        ensures wire { result ≡ drawn_wire (next_state self.old.state) wires }
        ensures state { self.new.state ≡ next_state self.old.state }
    {
        (self.next() >> 32) as u32 % wires
    }

    /// The gate that sets a wire, and reads wires before it. It takes three draws, whatever its kind.
    #[inline]
    pub fn gate(&mut self, out: u32) -> GateRow
        requires { 0 < out }
        ensures gate { let kind = next_state self.old.state in
            let first = next_state kind in
            result ≡ drawn_gate kind (drawn_wire first out) (drawn_wire (next_state first) out) out }
        ensures state { self.new.state ≡ next_state (next_state (next_state self.old.state)) }
        ensures sets { wire_set result ≡ out }
        ensures reads { ReadsEarlier result }
    {
        let kind = self.next() >> 61;
        let a = self.wire(out);
        let b = self.wire(out);
        match kind {
            0..=2 => GateRow::Xor { a, b, out },
            3..=5 => GateRow::And { a, b, out },
            6 => GateRow::Inv { a, out },
            _ => GateRow::Eqw { a, out },
        }
    }
}
