//! Claims of units: the prover writes down which units it has used, so that none is used twice, whatever crashes.
//!
//! A claim is a span of units. Claims stand in the slots of a journal of two areas, in whatever order they came, and no
//! two have a unit in common. What the store keeps of them are their merged ranges: spans that touch are one. Where all
//! slots are in use, a claim puts these ranges in place of all bodies, so that the journal is full only where there are
//! more ranges than slots.
//!
//! A claim is answered once the journal is synced: so a crash at any moment leaves a journal that says the ranges of
//! every claim that was answered, and the next start finds them.
//!
//!     let mut store = ClaimStore::start(alloc, disk, &id, total)?;
//!     let span = store.claim(alloc, start, count)?;
#![tactic(auto)]

ghost use Rattle.claim_store.specs.Causes.{ClaimsStartAgain};
ghost use Rattle.claim_store.specs.Claims.{BytesSayOneList};

mod fault;
pub mod merged;
pub mod ranges;
mod reading;
mod store;
mod writing;

pub use fault::StoreFault;
pub use store::ClaimStore;
use thiserror::Error;
use zk_model::Span;

/// Why a span of units is not claimed.
#[derive(Clone, Copy, Debug, PartialEq, Eq, Error)]
pub enum ClaimFault {
    /// A call of the journal's disk failed before: then its count of faults was this.
    #[error("a call of the journal's disk failed before, as number {first}")]
    Broken { first: u64 },
    /// The span ends above the total.
    #[error("the span ends above the total {total}")]
    OutOfRange { total: u64 },
    /// This range of earlier claims has a unit of the span.
    #[error("an earlier claim has a unit of the span")]
    Overlap { earlier: Span },
    /// All slots of the journal are in use, and the ranges of the claims would be more.
    #[error("all {slots} slots are in use")]
    Full { slots: u64 },
    /// A call of the journal's disk failed.
    #[error("a call of the journal's disk failed")]
    Device,
    /// Memory was missing.
    #[error("memory is missing")]
    NoMemory,
}

/// The bytes of a journal say one list of ranges: where a crash leaves bytes that say a list, a start on them finds it.
pub fn bytes_say_one_list()
    ensures { BytesSayOneList }
{}

/// Bytes in which a journal stands that says claims are refused by no start but where the disk fails or memory runs out.
pub fn claims_start_again()
    ensures { ClaimsStartAgain }
{}
