// Where links come from.
ghost use Rattle.std.specs.Prelude.{◌≡◌, IfSome, IfOk, OnOk, OnErr, string_bytes};
ghost use Rattle.zk_port.specs.Counts.{HasCause};

use crate::fault::PortFault;
use crate::link::Link;
use std::alloc::{AllocError, Global};

/// Where links come from: those that it calls, and those that call it.
pub trait Door {
    ghost use Rattle.zk_port.specs.Doors.{DoorState, IsFreshLink, IsListenedAt, TakesOne, OnlyTakes, after_listen, after_connect, after_refused_next, RefusesListen, RefusesConnect};

    /// What a connection is made of.
    type Link: Link;

    /// What was asked of the door, what it can give, and how often a call of each kind has failed.
    ghost state: { Self → DoorState };

    /// Listens at the address, for so many sessions, whose links `next` then gives one by one. A link on which nothing passes for as
    /// many seconds as the patience has fails; and until this end first sends on it, it fails after so many in all.
    fn listen(
        &mut self,
        alloc: Global,
        address: &str,
        patience: u32,
        sessions: u32,
    ) -> Result<(), PortFault>
        ensures listens { OnOk result
            (state self.new ≡ after_listen address.now patience sessions (state self.old)) }
        ensures refused { OnErr result
            (RefusesListen address.now patience (state self.old) (state self.new)) }
        ensures cause { HasCause (state self.old).listen_faults (state self.new).listen_faults result };

    /// The address at which it listens, with the port that was taken where the one that was asked for is 0. One that does not listen has none.
    fn address(&self, alloc: Global) -> Result<String, AllocError>
        ensures { IfOk result (λ text. IsListenedAt (state self.now) (string_bytes text)) };

    /// A fresh link to who listens at the address, which fails where nothing passes for as many seconds as the patience has.
    fn connect(
        &mut self,
        alloc: Global,
        address: &str,
        patience: u32,
    ) -> Result<Self::Link, PortFault>
        ensures fresh { IfOk result (λ link. IsFreshLink (Self.Link.state link)) }
        ensures connects { OnOk result
            (state self.new ≡ after_connect address.now patience (state self.old)) }
        ensures refused { OnErr result
            (RefusesConnect address.now patience (state self.old) (state self.new)) }
        ensures cause { HasCause (state self.old).connect_faults (state self.new).connect_faults result };

    /// The next of the links that were listened for, fresh; none exactly where none is left. A refused call
    /// uses none of them up.
    fn next(&mut self, alloc: Global) -> Result<Option<Self::Link>, PortFault>
        ensures fresh { IfOk result (λ given. IfSome given (λ link. IsFreshLink (Self.Link.state link))) }
        ensures given { IfOk result (λ given. TakesOne given (state self.old).left (state self.new).left) }
        ensures rest { OnOk result (OnlyTakes (state self.old) (state self.new)) }
        ensures refused { OnErr result
            (state self.new ≡ after_refused_next (state self.new).next_faults (state self.old)) }
        ensures cause { HasCause (state self.old).next_faults (state self.new).next_faults result };
}
