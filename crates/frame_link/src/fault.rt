// Why a frame does not pass.
ghost use Rattle.std.specs.Prelude.{◌≡◌};
ghost use Rattle.zk_port.specs.declared.fault.PortFault.TheVariants as port;
ghost use Rattle.frame_link.specs.Lines.{port_fault};
ghost use Rattle.frame_link.specs.declared.fault.LineFault.TheVariants.{NoMemory};

use std::alloc::{AllocError, AllocFailed};
use thiserror::Error;
use zk_port::PortFault;

/// Why a frame does not pass over a link.
#[derive(Clone, Copy, Debug, PartialEq, Eq, Error)]
pub enum LineFault {
    /// The peer ended before the frame was whole. So many bytes had come from it in all.
    #[error("the peer ended after {at} bytes")]
    PeerEnded { at: u64 },
    /// The peer's byte at this place, among all that came from it, is the first after which no frame that is expected can
    /// follow.
    #[error("the byte at {place} is that of no frame that is expected")]
    BadFrame { place: u64 },
    /// A call of the link failed, and its count of faults rose.
    #[error("the link failed")]
    Link,
    /// Memory was missing.
    #[error("memory is missing")]
    NoMemory,
}

impl From<AllocError> for LineFault {
    ghost from_gives = { λ _ e. e ≡ NoMemory };

    fn from(_: AllocError) -> Self {
        LineFault::NoMemory
    }
}

impl<T: Drop> From<AllocFailed<T>> for LineFault {
    ghost from_gives = { λ _ e. e ≡ NoMemory };

    fn from(_: AllocFailed<T>) -> Self {
        LineFault::NoMemory
    }
}

impl From<PortFault> for LineFault {
    ghost from_gives = { λ fault e. e ≡ port_fault fault };

    fn from(fault: PortFault) -> Self {
        match fault {
            PortFault::Failed => LineFault::Link,
            PortFault::NoMemory => LineFault::NoMemory,
        }
    }
}
