// Bytes written.
ghost use Rattle.std.specs.Prelude.{◌≡◌, OnOk, OnErr};
ghost use Rattle.zk_port.specs.Counts.{HasCause};
ghost use Rattle.zk_port.specs.Logs.{AppendsPart};
ghost use Rattle.zk_port.specs.Sinks.{SinkState, written_behind};

use crate::fault::PortFault;
use std::alloc::Global;

/// A place to write bytes to.
pub trait Sink {
    /// What is written, and how often a call has failed.
    ghost state: { Self → SinkState };

    /// How often a call has failed; a count at the end of its type stays there.
    fn faults(&self) -> u64
        ensures { result ≡ (state self.now).faults };

    /// Writes these bytes after all that was written. Where it is refused, a first part of them went
    /// out, maybe none or all: `Failed` for a fault of the sink, `NoMemory` for want of memory.
    fn put(&mut self, alloc: Global, bytes: &[u8]) -> Result<(), PortFault>
        ensures written { OnOk result (state self.new ≡ written_behind bytes.now (state self.old)) }
        ensures refused { OnErr result
            (AppendsPart bytes.now (state self.old).written (state self.new).written) }
        ensures cause { HasCause (state self.old).faults (state self.new).faults result };
}
