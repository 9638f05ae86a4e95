// Why units are not leased without waiting, and why a store doesn't start.
use thiserror::Error;
use twin_journal::StartFault;

/// Why units are not leased without waiting.
#[derive(Clone, Copy, Debug, PartialEq, Eq, Error)]
pub enum TryFault {
    /// So many units from here on would end above the total.
    #[error("{count} units from unit {at} on end above the total {total}")]
    Exhausted { at: u64, count: u32, total: u64 },
    /// The units end at `end`, above the ceiling that was shown.
    #[error("the units end at {end}, above the ceiling {known}")]
    NeedsRoom { end: u64, known: u64 },
}

/// Why a store doesn't start.
#[derive(Clone, Copy, Debug, PartialEq, Eq, Error)]
pub enum StoreFault {
    /// The journal is not opened.
    #[error("{0}")]
    Journal(StartFault),
    /// No memory was left for the words.
    #[error("memory is missing")]
    NoMemory,
}
