//! The outside in memory, for tests: objects of the traits of `zk_port` that tell all of what they hold. A plan says which of
//! their calls fail, and those are the calls that do, and which find no memory.
//!
//! `memory_shelf`, `memory_sink`, `memory_door` and `scripted_link` have the objects of those names, and `plan` the plans.
//! `memory_disk` has a disk that a crash may tear (`epoch` says what it may leave), `quiet_disk` the same with nothing told,
//! `sure_disk` one that never fails; `file_bytes` reads and writes what they hold. `meeting` has a link whose peer
//! waits for those of others.
//!
//! A sink whose second call fails, as a test makes it:
//!
//!     let mut out = MemorySink::new(alloc, FailAt::new([2].to_vec(alloc)?));
#![tactic(auto)]

mod epoch;
mod file_bytes;
mod meeting;
mod memory_disk;
mod memory_door;
mod memory_shelf;
mod memory_sink;
mod plan;
mod quiet_disk;
mod scripted_link;
mod sure_disk;

pub use epoch::Leftover;
pub use meeting::Meeting;
pub use memory_disk::MemoryDisk;
pub use memory_door::MemoryDoor;
pub use memory_shelf::MemoryShelf;
pub use memory_sink::MemorySink;
pub use plan::{FailAt, FaultPlan, NoFault};
pub use quiet_disk::QuietDisk;
pub use scripted_link::ScriptedLink;
pub use sure_disk::SureDisk;
