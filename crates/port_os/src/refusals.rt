// Calls of the system that were refused.
ghost use Rattle.std.specs.Prelude.{◌≡◌, Err};
ghost use Rattle.zk_port.specs.Counts.{HasCause};

use crate::no_memory::found_no_memory;
use std::io;
use zk_port::PortFault;

/// Why a call was refused; one that failed is counted, unless memory was missing.
pub(crate) fn refusal(error: io::Error, faults: &mut u64) -> PortFault
    ensures { HasCause {T = Unit {0}} faults.old faults.new (Err result) }
{
    if found_no_memory(&error) {
        return PortFault::NoMemory;
    }
    *faults = faults.saturating_add(1);
    PortFault::Failed
}
