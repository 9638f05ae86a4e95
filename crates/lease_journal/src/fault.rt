// Why a journal refuses.
ghost use Rattle.lease_journal.specs.declared.fault.StartFault.TheVariants as start;
ghost use Rattle.std.specs.Prelude.{◌≡◌};

use thiserror::Error;
use zk_port::Failed;

/// Why a journal is not opened.
#[derive(Clone, Copy, Debug, PartialEq, Eq, Error)]
pub enum StartFault {
    /// A call of the disk failed: its count of faults rose.
    #[error("a call of the disk failed")]
    Device,
    /// The file ends at `got`, before its header is whole (`need` is 64) or inside a slot that is read (`need` is the
    /// length of a whole journal).
    #[error("the journal has {got} bytes where {need} are needed")]
    Short { need: u64, got: u64 },
    /// The first byte of the header that is not as kind, total and id ask for; 24 for the number of slots.
    #[error("byte {place} of the header is another")]
    BadHeader { place: u64 },
    /// The first open slot whose body breaks the rule of its kind.
    #[error("the body of slot {slot} breaks its rule")]
    BadBody { slot: u64 },
}

/// Why a journal refuses a call.
#[derive(Clone, Copy, Debug, PartialEq, Eq, Error)]
pub enum JournalFault {
    /// A call of the disk failed in this call: its count of faults rose.
    #[error("a call of the disk failed")]
    Device,
    /// A call of the disk has failed before; `first` is the count of faults then.
    #[error("a call of the disk failed before, as number {first}")]
    Broken { first: u64 },
    /// All slots are in use.
    #[error("all {slots} slots are in use")]
    Full { slots: u64 },
}

impl From<Failed> for StartFault {
    ghost from_gives = { λ _ e. e ≡ start.Device };

    fn from(_: Failed) -> Self {
        StartFault::Device
    }
}
