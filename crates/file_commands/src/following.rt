// What is said to people who follow a service.
ghost use Rattle.std.specs.Prelude.{◌≡◌, ◌<◌, false};

use std::alloc::{AllocError, Global};
use zk_port::{Door, PortFault, Sink};

/// Where nobody hears what is said.
#[derive(Drop)]
pub struct Unheard;

impl Sink for Unheard {
    ghost use Rattle.std.specs.Prelude.{None};

    ghost state = { λ s. record { written = None; faults = 0 } };

    fn faults(&self) -> u64 {
        0
    }

    fn put(&mut self, _alloc: Global, _bytes: &[u8]) -> Result<(), PortFault> {
        Ok(())
    }
}

/// Says a text to whoever follows, if memory was enough for it.
fn say_followed<E: Sink>(alloc: Global, notices: &mut E, text: Result<String, AllocError>) {
    if let Ok(text) = text {
        let _ = notices.put(alloc, text.as_bytes());
    }
}

/// Where a service listens, how many units are left, and how many sessions of so many units these are enough for.
fn write_start<D: Door>(
    alloc: Global,
    door: &D,
    left: u64,
    units: u64,
) -> Result<String, AllocError>
    requires { 0 < units }
{
    let address = door.address(alloc)?;
    let sessions = left / units;
    Ok(format!(in alloc; "listening {address}\nleft {left} sessions {sessions}\n")?)
}

/// Says that a service has begun, where it is followed: where it listens, how many units are left, and how many sessions of so many units
/// these are enough for.
pub fn say_start<D: Door, E: Sink>(
    alloc: Global,
    notices: &mut E,
    door: &D,
    follow: bool,
    left: u64,
    units: u64,
)
    requires { 0 < units }
    ensures { follow ≡ false → E.state notices.new ≡ E.state notices.old }
{
    if follow {
        say_followed(alloc, notices, write_start(alloc, door, left, units));
    }
}

/// Where a broker listens, and how many units are left.
fn write_broker_start<D: Door>(alloc: Global, door: &D, left: u64) -> Result<String, AllocError> {
    let address = door.address(alloc)?;
    Ok(format!(in alloc; "listening {address}\nleft {left}\n")?)
}

/// Says that a broker has begun, where it is followed: where it listens, and how many units are left.
pub fn say_broker_start<D: Door, E: Sink>(
    alloc: Global,
    notices: &mut E,
    door: &D,
    follow: bool,
    left: u64,
)
    ensures { follow ≡ false → E.state notices.new ≡ E.state notices.old }
{
    if follow {
        say_followed(alloc, notices, write_broker_start(alloc, door, left));
    }
}
