// What passed between both ends of a session.
ghost use Rattle.std.specs.Prelude.{◌≡◌, ◌++◌, ◌+◌, ◌^◌, ◌<◌, ◌≤◌, [], ℕ, List, length, map, sum_by, vec_len, vec_capacity, OnOk, OnErr};
ghost use Rattle.zk_model.specs.Transcript.{bytes_from};
ghost use Rattle.frame_link.specs.Runs.{entries, run_count};

use std::alloc::{AllocError, Global};
use std::marker::Model;
use zk_model::Side;

/// Bytes in a row that one side sent.
#[derive(Clone, Copy, Debug, PartialEq, Eq)]
pub struct Run {
    pub side: Side,
    pub count: usize,
}

/// The bytes of a session in the order in which they passed, each with the side that sent it. They are kept as
/// bytes and as runs of sides.
#[derive(Debug, Drop)]
pub struct Log {
    bytes: Vec<u8>,
    runs: Vec<Run>,
}

impl Model for Log {
    ghost use Rattle.std.specs.Prelude.{◌≡◌, List, ℕ, length, sum_by};
    ghost use Rattle.zk_model.specs.declared.Side.{Side};

    ghost Value = { List (Side × ℕ) };

    ghost use Rattle.frame_link.specs.Runs.{entries, run_count};

    ghost view = { λ l. entries l.runs.items l.bytes.items };

    ghost invariant = { λ l. sum_by run_count l.runs.items ≡ length l.bytes.items };
}

/// Notes one more run: after one of the same side they are one run.
#[tactic(auto, using(crate::proofs::RunLemmas::one_run, crate::proofs::RunLemmas::entries_push, crate::proofs::RunLemmas::sum_push))]
fn note_run(runs: &mut Vec<Run>, run: Run)
    requires room { vec_len runs.old < vec_capacity runs.old }
    requires fits { sum_by run_count runs.old.items + run.count < 2 ^ 63 }
    ensures noted { (bytes more : List ℕ) → sum_by run_count runs.old.items ≡ length bytes
        → run.count ≡ length more → entries runs.new.items (bytes ++ more)
        ≡ entries runs.old.items bytes ++ bytes_from run.side more }
    ensures counted { sum_by run_count runs.new.items ≡ sum_by run_count runs.old.items + run.count }
    ensures len { vec_len runs.new ≤ vec_len runs.old + 1 }
    ensures capacity { vec_capacity runs.new ≡ vec_capacity runs.old }
{
    match runs.pop() {
        Some(last) if last.side == run.side => runs.push_reserved(Run {
            side: run.side,
            count: last.count + run.count,
        }),
        Some(last) => {
            runs.push_reserved(last);
            runs.push_reserved(run);
        }
        None => runs.push_reserved(run),
    }
}

/// Notes that a side sent these bytes, for which there is room.
pub(crate) fn note_bytes(bytes: &mut Vec<u8>, runs: &mut Vec<Run>, side: Side, more: &[u8])
    requires counted { sum_by run_count runs.old.items ≡ vec_len bytes.old }
    requires bytes_fit { vec_len bytes.old + length more.now ≤ vec_capacity bytes.old }
    requires run_fits { 0 < length more.now → vec_len runs.old < vec_capacity runs.old }
    ensures noted { entries runs.new.items bytes.new.items
        ≡ entries runs.old.items bytes.old.items ++ bytes_from side more.now }
    ensures counted { sum_by run_count runs.new.items ≡ vec_len bytes.new }
    ensures bytes { vec_len bytes.new ≡ vec_len bytes.old + length more.now }
    ensures runs { vec_len runs.new ≤ vec_len runs.old + 1 }
    ensures bytes_capacity { vec_capacity bytes.old ≤ vec_capacity bytes.new }
    ensures runs_capacity { vec_capacity runs.new ≡ vec_capacity runs.old }
{
    if more.is_empty() {
        return;
    }
    if bytes.extend_from_slice(more).is_err() {
        unreachable!();
    }
    let count = more.len();
    note_run(runs, Run { side, count });
}

impl Log {
    /// The log of these bytes, by these runs.
    pub(crate) fn of(bytes: Vec<u8>, runs: Vec<Run>) -> Self
        requires { sum_by run_count runs.items ≡ length bytes.items }
        ensures { result ≡ entries runs.items bytes.items }
    {
        Log { bytes, runs }
    }

    /// A log of nothing.
    pub fn new(alloc: Global) -> Self
        ensures { result ≡ [] }
    {
        Log {
            bytes: Vec::new(alloc),
            runs: Vec::new(alloc),
        }
    }

    /// The bytes of both sides, in the order in which they passed.
    pub fn bytes(&self) -> &[u8]
        ensures { result.now ≡ map (λ entry. entry.1) self.now }
    {
        &self.bytes
    }

    /// The runs of sides: which side sent the bytes, and how many in a row. Their counts add up to the number of bytes.
    pub fn runs(&self) -> &[Run]
        ensures sides { self.now ≡ entries result.now (map (λ entry. entry.1) self.now) }
        ensures counts { sum_by run_count result.now ≡ length self.now }
    {
        &self.runs
    }

    /// Notes that a side sent these bytes.
    ///
    /// # Errors
    ///
    /// Only where memory runs out; then nothing is noted.
    pub fn push(&mut self, side: Side, bytes: &[u8]) -> Result<(), AllocError>
        ensures noted { OnOk result (self.new ≡ self.old ++ bytes_from side bytes.now) }
        ensures refused { OnErr result (self.new ≡ self.old) }
    {
        self.runs.reserve(1)?;
        self.bytes.reserve(bytes.len())?;
        note_bytes(&mut self.bytes, &mut self.runs, side, bytes);
        Ok(())
    }
}
