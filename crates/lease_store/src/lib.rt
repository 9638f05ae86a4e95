//! Leases of units: threads draw spans of units, and are granted those that end at or below a ceiling that a journal keeps.
//!
//! Threads draw by the lease words, and behind a lock stand the journal and the seat that raises the ceiling. A span is
//! granted once its pass has seen a ceiling at or above its end, and the ceiling is shown only after the journal's put of
//! it: so a crash at any moment leaves a journal whose ceiling is at or above the end of every span that was granted, and
//! the next start begins there. The journal has two areas: where all slots of one are in use, it is compacted to the one
//! new ceiling, so that no lease finds it full.
#![tactic(auto)]

ghost use Rattle.lease_store.specs.Laws.{BlankSaysZero, CeilingsStartAgain};
ghost use Rattle.lease_store.specs.Stops.{StopsAreSafe};

mod ceilings;
mod desk;
mod fault;
mod grantor;
mod leasing;
mod name;
mod parts;
mod raising;
mod store;

pub use ceilings::CeilingJournal;
pub use desk::Desk;
pub use fault::{StoreFault, TryFault};
pub use grantor::{GrantFault, Grantor};
pub use name::LeaseName;
pub use parts::LeaseParts;
pub use store::LeaseStore;
use thiserror::Error;
use zk_port::Disk;

/// Why units are not leased.
#[derive(Clone, Copy, Debug, PartialEq, Eq, Error)]
pub enum LeaseFault {
    /// So many units from here on would end above the total.
    #[error("{count} units from unit {at} on end above the total {total}")]
    Exhausted { at: u64, count: u32, total: u64 },
    /// A call of the journal's disk failed.
    #[error("a call of the journal's disk failed")]
    Device,
    /// A call of the journal's disk failed before: then its count of faults was this.
    #[error("a call of the journal's disk failed before, as number {first}")]
    Broken { first: u64 },
}

/// A store may start on all bytes in which a ceiling is found: no fault but one of the disk refuses them. And bytes say
/// one ceiling.
pub fn ceilings_start_again()
    ensures { CeilingsStartAgain }
{}

/// A new journal for one unit or more says ceiling 0.
pub fn blank_says_zero()
    ensures { BlankSaysZero }
{}

/// A run may be stopped at any moment, whether or not what it does ever returns: each span that was granted by then ends
/// at or below the ceiling that each image of the disk recovers.
pub fn stops_are_safe<B: Disk>()
    ensures { StopsAreSafe B.state }
{}
