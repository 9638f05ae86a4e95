// What a crash may leave of a disk in memory between two syncs.
ghost use Rattle.std.specs.Prelude.{◌≡◌, true, IfOk};
ghost use Rattle.memory_ports.specs.Epochs.{is_prepared};

use std::alloc::{AllocError, Global};

/// The range of a write: so many bytes from place `at` on.
#[derive(Clone, Copy, Debug, PartialEq, Eq)]
pub struct Pending {
    pub at: u64,
    pub count: u64,
}

/// What a crash leaves in the range of a write that no sync has followed.
#[derive(Clone, Copy, Debug, PartialEq, Eq)]
pub enum Leftover {
    /// What stood there before.
    Old,
    /// What a read gives there.
    New,
    /// This byte, all over the range.
    Filled(u8),
}

/// What becomes of a call.
#[derive(Clone, Copy, Debug, PartialEq, Eq)]
pub enum Turn {
    /// It is done.
    Goes,
    /// It fails, and may have been done in part.
    Fails,
    /// It fails and reaches nothing.
    Lost,
}

/// The time from one sync that succeeded to the next: the content at its start, and the ranges of the writes since,
/// in order.
#[derive(Drop)]
pub struct Epoch {
    pub base: Vec<u8>,
    pub ranges: Vec<Pending>,
}

/// An empty epoch with room for so many bytes and so many ranges.
pub fn prepare(alloc: Global, room: usize, calls: usize) -> Result<Epoch, AllocError>
    ensures { IfOk result (λ epoch. is_prepared room calls epoch ≡ true) }
{
    Ok(Epoch {
        base: Vec::with_capacity(alloc, room)?,
        ranges: Vec::with_capacity(alloc, calls)?,
    })
}
