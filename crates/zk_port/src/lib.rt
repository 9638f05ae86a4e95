//! The outside: files, output, links, doors and disks, each as a trait that says what its calls mean, over one record of what it tells
//! (`state`). `fault` has the refusals, and `access` says how a disk's file is taken.
//!
//! Code that is generic over a trait reaches the outside by it alone, and can't raise a count of faults itself:
//!
//!     fn greet(out: &mut impl Sink, alloc: Global) -> Result<(), PortFault> {
//!         out.put(alloc, b"hello\n")
//!     }
#![tactic(auto)]

mod access;
mod disk;
mod door;
mod fault;
mod link;
mod shelf;
mod sink;
mod way;

pub use access::Access;
pub use disk::Disk;
pub use door::Door;
pub use fault::{Failed, LoadFault, PortFault};
pub use link::Link;
pub use shelf::Shelf;
pub use sink::Sink;
pub use way::Way;
