// Why a draw is refused.
use thiserror::Error;

/// The draw of `count` units at `at` ended above the total. The units are drawn all the same, and nobody gets them.
#[derive(Clone, Copy, Debug, PartialEq, Eq, Error)]
#[error("{count} units from unit {at} on end above the total {total}")]
pub struct Exhausted {
    pub at: u64,
    pub count: u32,
    pub total: u64,
}
