// The rounds of neighbouring units, on one thread or many, and what they make, unit by unit.
ghost use Rattle.std.specs.Prelude.{◌≡◌, ◌+◌, ◌≤◌, ◌<◌, ◌^◌, ◌++◌, ◌∷◌, ℕ, List, [], length, IfOk, OnOk};
ghost use Rattle.round_fan.specs.Fans.{AreBlocksMade, DoFit};

use crate::room::Wave;
use std::alloc::{AllocError, Global};
use std::thread::{self, Threads};

/// The rounds of one end over units of its file: an `X` came for each unit, and all of them make an `M`.
pub(crate) trait Rounds<X, M> {
    ghost use Rattle.std.specs.Prelude.{◌+◌, ◌++◌, ◌∷◌, ℕ, List, [], length, IfOk, OnOk};

    /// What may come for a unit of this number.
    ghost Fits: { Self → ℕ → X → Type 0 };

    /// What is made of what came for the units from this number on.
    ghost Makes: { Self → ℕ → List X → M → Type 0 };

    /// What no units make.
    fn none(&self, alloc: Global) -> M
        ensures { (start : ℕ) → Makes self.now start [] result };

    /// The round of one unit.
    fn make(&self, alloc: Global, unit: u64, came: &X) -> Result<M, AllocError>
        requires fits { Fits self.now unit came.now }
        ensures { IfOk result (Makes self.now unit (came.now ∷ [])) };

    /// Puts what later units made behind what the units before them did.
    fn add(&self, all: &mut M, more: M) -> Result<(), AllocError>
        ensures { OnOk result ((start : ℕ) (first rest : List X) → Makes self.now start first all.old
            → Makes self.now (start + length first) rest more
            → Makes self.now start (first ++ rest) all.new) };
}

/// Adds what the units make from this one on, one after another.
pub(crate) fn one_by_one<X, M: Drop, U: Rounds<X, M>>(
    alloc: Global,
    rounds: &U,
    start: u64,
    came: &[X],
    all: &mut M,
) -> Result<(), AllocError>
    requires none { U.Makes rounds.now start [] all.old }
    requires fits { DoFit (U.Fits rounds.now) start came.now }
    requires room { start + length came.now < 2 ^ 64 }
    ensures { OnOk result (U.Makes rounds.now start came.now all.new) }
{
    for (i, one) in came.iter().enumerate() {
        let made = rounds.make(alloc, start + i as u64, one)?;
        rounds.add(all, made)?;
    }
    Ok(())
}

/// What the units make from this one on, one after another.
fn block_made<X, M: Drop, U: Rounds<X, M>>(
    alloc: Global,
    rounds: &U,
    start: u64,
    came: &[X],
) -> Result<M, AllocError>
    requires fits { DoFit (U.Fits rounds.now) start came.now }
    requires room { start + length came.now < 2 ^ 64 }
    ensures { IfOk result (U.Makes rounds.now start came.now) }
{
    let mut made = rounds.none(alloc);
    one_by_one(alloc, rounds, start, came, &mut made)?;
    Ok(made)
}

/// Adds what was made of blocks of so many units, one after another.
fn add_all<X, M: Drop, U: Rounds<X, M>>(
    rounds: &U,
    made: Vec<Result<M, AllocError>>,
    all: &mut M,
) -> Result<(), AllocError>
    ensures { OnOk result ((start size : ℕ) (first came : List X) → U.Makes rounds.now start first all.old
        → AreBlocksMade (U.Makes rounds.now) (start + length first) size came made.items
        → U.Makes rounds.now start (first ++ came) all.new) }
{
    for block in made {
        rounds.add(all, block?)?;
    }
    Ok(())
}

/// Adds what the next units make, in blocks of so many neighbours, each block in a thread of its own.
fn side_by_side<X: Sync, M: Send + Drop, U: Rounds<X, M> + Sync, R: Threads + Sync>(
    rt: &R,
    alloc: Global,
    rounds: &U,
    start: u64,
    came: &[X],
    size: usize,
    all: &mut M,
) -> Result<(), AllocError>
    requires some { 1 ≤ size }
    requires fits { DoFit (U.Fits rounds.now) start came.now }
    requires room { start + length came.now < 2 ^ 64 }
    ensures { OnOk result ((from : ℕ) (first : List X) → start ≡ from + length first
        → U.Makes rounds.now from first all.old → U.Makes rounds.now from (first ++ came.now) all.new) }
{
    let part = |from: usize, block: &[X]| -> Result<M, AllocError>
        requires { (start + from + length block.now < 2 ^ 64)
            × DoFit (U.Fits rounds.now) (start + from) block.now }
        ensures { IfOk result (U.Makes rounds.entry.now (start + from) block.entry.now) }
    { block_made(alloc, rounds, start + from as u64, block) };
    let made = thread::map_chunks(rt, alloc, came, size, &part)?;
    add_all(rounds, made, all)?;
    Ok(())
}

/// Adds what the units make from this one on, a wave at a time. A thread holds what one block takes and no more: what it makes is
/// added, and given up, before the next wave begins. Units that are all one block are done on the caller's thread.
pub(crate) fn some_at_a_time<X: Sync, M: Send + Drop, U: Rounds<X, M> + Sync, R: Threads + Sync>(
    rt: &R,
    alloc: Global,
    rounds: &U,
    start: u64,
    came: &[X],
    wave: Wave,
    all: &mut M,
) -> Result<(), AllocError>
    requires some { 1 ≤ wave.units }
    requires block { 1 ≤ wave.block }
    requires none { U.Makes rounds.now start [] all.old }
    requires fits { DoFit (U.Fits rounds.now) start came.now }
    requires room { start + length came.now < 2 ^ 64 }
    ensures { OnOk result (U.Makes rounds.now start came.now all.new) }
{
    if came.len() <= wave.block {
        return one_by_one(alloc, rounds, start, came, all);
    }
    let mut done = 0;
    while done < came.len() {
        let end = done + (came.len() - done).min(wave.units);
        side_by_side(
            rt,
            alloc,
            rounds,
            start + done as u64,
            &came[done..end],
            wave.block,
            all,
        )?;
        done = end;
    }
    Ok(())
}
