// The text of a gate.
ghost use Rattle.std.specs.Prelude.{◌≡◌, ◌+◌, ◌<◌, ◌≤◌, ◌^◌, [], ◌++◌, length, codes, OnOk};
ghost use Rattle.std.specs.Fmt.{decimal};
ghost use Rattle.circuit_gen.specs.Generated.{gate_line};
ghost use Rattle.zk_model.specs.Circuit.{wire_set};
ghost use Rattle.circuit_gen.specs.Lines.{ReadsEarlier, two_input_line, single_line};

use itoa::write_digits;
use std::alloc::AllocError;
use std::marker::Model;
use zk_model::GateRow;

/// The greatest length of a gate's line: three numbers of at most seven digits, and eleven other bytes.
const MAX_LINE: usize = 32;

/// A line, written from its end to its start.
#[derive(Drop)]
struct Line {
    bytes: [u8; MAX_LINE],
    start: usize,
}

impl Model for Line {
    ghost use Rattle.std.specs.Prelude.{ℕ, ◌≤◌, List, drop};

    ghost Value = { List ℕ };

    ghost view = { λ line. drop line.start line.bytes };

    ghost invariant = { λ line. line.start ≤ 32 };
}

impl Line {
    /// A line of which nothing is written.
    fn new() -> Line
        ensures { result ≡ [] }
    {
        Line {
            bytes: [0; MAX_LINE],
            start: MAX_LINE,
        }
    }

    /// Puts a text before what is written.
    #[inline(always)]
    fn put(&mut self, text: &[u8])
        requires { length text.now + length self.old ≤ 32 }
        ensures text { self.new ≡ text.now ++ self.old }
        ensures length { length self.new ≡ length text.now + length self.old }
    {
        let start = self.start - text.len();
        self.bytes[start..self.start].copy_from_slice(text);
        self.start = start;
    }

    /// Puts a number of at most seven digits before what is written.
    #[inline(always)]
    fn put_number(&mut self, n: u32)
        requires number { n < 10 ^ 7 }
        requires room { 7 + length self.old ≤ 32 }
        ensures text { self.new ≡ decimal n ++ self.old }
        ensures length { length self.new ≤ 7 + length self.old }
    {
        self.start = write_digits(u64::from(n), &mut self.bytes, self.start);
    }

    /// Puts the line of a gate with two inputs, whose name comes with the space before it and the line feed.
    #[inline(always)]
    fn put_pair(&mut self, name: &[u8], a: u32, b: u32, out: u32)
        requires empty { self.old ≡ [] }
        requires name { length name.now ≤ 5 }
        requires wires { (a < 10 ^ 7) × (b < 10 ^ 7) × (out < 10 ^ 7) }
        ensures { self.new ≡ two_input_line name.now a b out }
    {
        self.put(name);
        self.put_number(out);
        self.put(b" ");
        self.put_number(b);
        self.put(b" ");
        self.put_number(a);
        self.put(b"2 1 ");
    }

    /// The same of a gate with one input.
    #[inline(always)]
    fn put_single(&mut self, name: &[u8], a: u32, out: u32)
        requires empty { self.old ≡ [] }
        requires name { length name.now ≤ 5 }
        requires wires { (a < 10 ^ 7) × (out < 10 ^ 7) }
        ensures { self.new ≡ single_line name.now a out }
    {
        self.put(name);
        self.put_number(out);
        self.put(b" ");
        self.put_number(a);
        self.put(b"1 1 ");
    }

    /// What is written.
    #[inline(always)]
    fn text(&self) -> &[u8]
        ensures { result.now ≡ self.now }
    {
        &self.bytes[self.start..]
    }
}

/// Appends a gate's line to a text.
pub fn push_line(text: &mut Vec<u8>, gate: GateRow) -> Result<(), AllocError>
    requires sets { wire_set gate < 10 ^ 7 }
    requires reads { ReadsEarlier gate }
    ensures { OnOk result (text.new.items ≡ text.old.items ++ gate_line gate) }
{
    let mut line = Line::new();
    match gate {
        GateRow::And { a, b, out } => line.put_pair(b" AND\n", a, b, out),
        GateRow::Xor { a, b, out } => line.put_pair(b" XOR\n", a, b, out),
        GateRow::Inv { a, out } => line.put_single(b" INV\n", a, out),
        GateRow::Eqw { a, out } => line.put_single(b" EQW\n", a, out),
        GateRow::Eq { value, out } => line.put_single(b" EQ\n", u32::from(value), out),
    }
    text.extend_from_slice(line.text())?;
    Ok(())
}
