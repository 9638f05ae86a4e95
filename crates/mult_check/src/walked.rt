// Sums along a walk, at either end: its products are read block by block, and so many workers sum each block; or one after another, and no
// memory is taken.
ghost use Rattle.std.specs.Prelude.{◌≡◌, ◌+◌, ◌-◌, ◌*◌, ◌≤◌, ◌<◌, ℕ, List, [], length, min, take, drop, slice_index_or, IfOk, OnOk};
ghost use Rattle.zk_model.specs.Program.{part_count};
ghost use Rattle.zk_model.specs.Check.{section_of};

use crate::parts::Sums;
use crate::sections::section_bounds;
use std::alloc::{AllocError, Global};
use std::thread::{self, Threads};

/// How many products are held at once, at most.
const BLOCK: usize = 65_536;

/// Below so many products a block is summed by one thread: to start another takes longer.
const LEAST_SHARED: usize = 4096;

/// How many products are held at once: one worker takes no more than stay close to it.
fn block_length(workers: u32) -> usize
    ensures { 1 ≤ result }
{
    if workers == 1 { LEAST_SHARED } else { BLOCK }
}

/// A walk along a program's products, at either end, of each of which it gives a `T`.
pub(crate) trait Walk<T> {
    ghost use Rattle.std.specs.Prelude.{◌≡◌, ◌+◌, ◌<◌, ℕ, List, length, Some, slice_index_or};

    /// What it gives of all products, and of how many it has.
    ghost all: { Self → List T };

    ghost met: { Self → ℕ };

    /// Two moments of one walk.
    ghost Keeps: { Self → Self → Type 0 };

    /// How many products there are.
    fn count(&self) -> usize
        ensures { result ≡ length (all self.now) };

    /// What it gives of the next product.
    fn give(&mut self) -> Option<T>
        ensures item { (item : T) → met self.old < length (all self.old)
            → result ≡ Some (slice_index_or (all self.old) (met self.old) item) }
        ensures met { met self.old < length (all self.old) → met self.new ≡ met self.old + 1 }
        ensures kept { Keeps self.old self.new };

    ghost kept_none: { (walk : Self) → Keeps walk walk };

    ghost kept_both: { (first then last : Self) → Keeps first then → Keeps then last → Keeps first last };

    ghost kept_all: { (first last : Self) → Keeps first last → all last ≡ all first };
}

/// What a walk that has met fewer products than there are gives of the next one.
fn next_item<T, W: Walk<T>>(walk: &mut W) -> T
    requires { W.met walk.old < length (W.all walk.old) }
    ensures item { result ≡ slice_index_or (W.all walk.old) (W.met walk.old) result }
    ensures met { W.met walk.new ≡ W.met walk.old + 1 }
    ensures kept { W.Keeps walk.old walk.new }
{
    let Some(item) = walk.give() else {
        unreachable!()
    };
    item
}

/// Takes the next products of a walk, so many, in order.
fn take_block<T: Drop, W: Walk<T>>(
    walk: &mut W,
    count: usize,
    block: &mut Vec<T>,
) -> Result<(), AllocError>
    requires there { W.met walk.old + count ≤ length (W.all walk.old) }
    ensures kept { W.Keeps walk.old walk.new }
    ensures met { OnOk result (W.met walk.new ≡ W.met walk.old + count) }
    ensures block { OnOk result (block.new.items ≡ take count (drop (W.met walk.old) (W.all walk.old))) }
{
    block.clear();
    for _taken in 0..count {
        block.push(next_item(walk))?;
    }
    Ok(())
}

/// The sums over the products of all parts, one after another.
fn joined<T, P: Sums<T>>(parts: &[P], none: P) -> P
    requires { P.Over none [] none }
    ensures { (block : List T) (size : ℕ) → length block ≤ length parts.now * size
        → ((i : ℕ) (d : P) → i < length parts.now
        → P.Over none (take size (drop (i * size) block)) (slice_index_or parts.now i d))
        → P.Over none block result }
{
    let mut whole = none;
    for part in parts {
        whole = whole.and(*part);
    }
    whole
}

/// The sums over a block's products, by so many workers, from those over none.
fn block_part<T: Sync, P: Sums<T>, R: Threads + Sync>(
    rt: &R,
    alloc: Global,
    block: &[T],
    none: P,
    workers: u32,
) -> Result<P, AllocError>
    requires some { 1 ≤ workers }
    requires none { P.Over none [] none }
    ensures { IfOk result (P.Over none block.now) }
{
    if workers == 1 || block.len() < LEAST_SHARED {
        return Ok(none.with(block));
    }
    let size = block.len().div_ceil(workers as usize);
    let part = |_from: usize, products: &[T]| -> P
        requires { P.Over none [] none }
        ensures { P.Over none products.entry.now result }
    { none.with(products) };
    let parts = thread::map_chunks(rt, alloc, block, size, &part)?;
    Ok(joined(&parts, none))
}

/// The sums over the next products of a walk, so many, from those over none. The block is room to work in.
fn next_part<T: Sync + Drop, P: Sums<T>, W: Walk<T>, R: Threads + Sync>(
    rt: &R,
    alloc: Global,
    walk: &mut W,
    count: usize,
    block: &mut Vec<T>,
    none: P,
    workers: u32,
) -> Result<P, AllocError>
    requires some { 1 ≤ workers }
    requires none { P.Over none [] none }
    requires there { W.met walk.old + count ≤ length (W.all walk.old) }
    ensures kept { W.Keeps walk.old walk.new }
    ensures met { OnOk result (W.met walk.new ≡ W.met walk.old + count) }
    ensures part { IfOk result (P.Over none (take count (drop (W.met walk.old) (W.all walk.old)))) }
{
    let mut whole = none;
    let mut done = 0;
    while done < count {
        let more = block_length(workers).min(count - done);
        take_block(walk, more, block)?;
        let part = block_part(rt, alloc, block, none, workers)?;
        whole = whole.and(part);
        done += more;
    }
    Ok(whole)
}

/// The sums over section s, the next of a walk, from those over none. The block is room to work in.
pub(crate) fn next_section<T: Sync + Drop, P: Sums<T>, W: Walk<T>, R: Threads + Sync>(
    rt: &R,
    alloc: Global,
    walk: &mut W,
    g: usize,
    s: usize,
    block: &mut Vec<T>,
    none: P,
    workers: u32,
) -> Result<P, AllocError>
    requires some { 1 ≤ workers }
    requires none { P.Over none [] none }
    requires at_least_one { 1 ≤ g }
    requires there { s < part_count (length (W.all walk.old)) g }
    requires met { W.met walk.old ≡ s * g }
    ensures kept { W.Keeps walk.old walk.new }
    ensures met { OnOk result (W.met walk.new ≡ min (s * g + g) (length (W.all walk.old))) }
    ensures part { IfOk result (P.Over none (section_of g s (W.all walk.old))) }
{
    let (first, end) = section_bounds(walk.count(), g, s);
    next_part(rt, alloc, walk, end - first, block, none, workers)
}

/// The sums over the next products of a walk, so many, from those over none.
fn part_along<T, P: Sums<T>, W: Walk<T>>(walk: &mut W, count: usize, none: P) -> P
    requires none { P.Over none [] none }
    requires there { W.met walk.old + count ≤ length (W.all walk.old) }
    ensures kept { W.Keeps walk.old walk.new }
    ensures met { W.met walk.new ≡ W.met walk.old + count }
    ensures part { P.Over none (take count (drop (W.met walk.old) (W.all walk.old))) result }
{
    let mut part = none;
    for _taken in 0..count {
        part = part.with_next(next_item(walk));
    }
    part
}

/// The sums over section s, the next of a walk, from those over none.
pub(crate) fn section_along<T, P: Sums<T>, W: Walk<T>>(
    walk: &mut W,
    g: usize,
    s: usize,
    none: P,
) -> P
    requires none { P.Over none [] none }
    requires at_least_one { 1 ≤ g }
    requires there { s < part_count (length (W.all walk.old)) g }
    requires met { W.met walk.old ≡ s * g }
    ensures kept { W.Keeps walk.old walk.new }
    ensures met { W.met walk.new ≡ min (s * g + g) (length (W.all walk.old)) }
    ensures part { P.Over none (section_of g s (W.all walk.old)) result }
{
    let (first, end) = section_bounds(walk.count(), g, s);
    part_along(walk, end - first, none)
}
