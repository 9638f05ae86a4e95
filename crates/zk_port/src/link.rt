// A stream of bytes to a peer and back.
ghost use Rattle.std.specs.Prelude.{◌≡◌, ◌≤◌, ℕ, take, drop, length, IfOk, OnOk, OnErr, IsTrue};
ghost use Rattle.zk_port.specs.Counts.{HasCause};

use crate::fault::PortFault;
use std::alloc::Global;

/// One end of a stream of bytes. No call follows `end`.
pub trait Link {
    ghost use Rattle.zk_port.specs.Links.{LinkState, after_send, SendsPart, Receives, after_refused_receive, after_end};

    /// What has passed and what comes, how many calls there were and how often one has failed.
    ghost state: { Self → LinkState };

    /// How often a call has failed; a count at the end of its type stays there.
    fn faults(&self) -> u64
        ensures { result ≡ (state self.now).faults };

    /// Sends these bytes, in this order after all that was sent. Where it is refused, a first part of
    /// them went out, maybe none or all: `Failed` for a fault of the stream, `NoMemory` for want of memory.
    fn send(&mut self, alloc: Global, bytes: &[u8]) -> Result<(), PortFault>
        requires { IsTrue (state self.old).is_open }
        ensures sent { OnOk result (state self.new ≡ after_send bytes.now (state self.old)) }
        ensures refused { OnErr result (SendsPart bytes.now (state self.old) (state self.new)) }
        ensures cause { HasCause (state self.old).faults (state self.new).faults result };

    /// Takes the next bytes of the peer into the front of the buffer, and says how many: fewer than fit may
    /// come, and none in a buffer that is not empty means that the peer has ended, for good. Where it is
    /// refused nothing is taken from the peer; what the buffer has then is not said.
    fn receive(&mut self, alloc: Global, buffer: &mut [u8]) -> Result<usize, PortFault>
        requires { IsTrue (state self.old).is_open }
        ensures within { IfOk result (λ n. n ≤ length buffer.old) }
        ensures rest { IfOk result (λ n. drop n buffer.new ≡ drop n buffer.old) }
        ensures taken { IfOk result (λ n.
            Receives (length buffer.old) n (take n buffer.new) (state self.old) (state self.new)) }
        ensures refused { OnErr result
            (state self.new ≡ after_refused_receive (state self.new).faults (state self.old)) }
        ensures cause { HasCause (state self.old).faults (state self.new).faults result };

    /// Ends the stream from this side: nothing more is sent, and no call follows. It can't be refused.
    fn end(&mut self)
        requires { IsTrue (state self.old).is_open }
        ensures { state self.new ≡ after_end (state self.old) };
}
