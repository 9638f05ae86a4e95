//! Real files, standard output and error, and connections of TCP behind the traits of the outside. They tell nothing of content, and count
//! each fault: that they do with files, output and peers what they are to do is trusted.
//!
//! `file_shelf` has files by their paths, `file_disk` a journal's file, `output_sink` standard output, `notice_sink` standard error, and `tcp_door` and
//! `tcp_link` connections. `no_memory` tells want of memory among the system's errors, `refusals` counts the others,
//! `reading` reads into a buffer's front, `patience` says how long a silent peer is waited for, `reason` keeps why
//! the first one failed, for people to read, and `seed` draws seeds. As `main` makes them:
//!
//!     let mut shelf = FileShelf::new(&rt);
//!     let mut out = OutputSink::new(&rt);
//!     let journal = FileDisk::new(&rt);
//!     let door = TcpDoor::new(&rt);
#![tactic(auto)]

mod file_disk;
mod file_shelf;
mod no_memory;
mod notice_sink;
mod output_sink;
mod patience;
mod reading;
mod reason;
mod refusals;
mod seed;
mod tcp_door;
mod tcp_link;

pub use file_disk::FileDisk;
pub use file_shelf::FileShelf;
pub use no_memory::found_no_memory;
pub use notice_sink::NoticeSink;
pub use output_sink::OutputSink;
pub use reason::{Outside, Reason};
pub use seed::read_seed;
pub use tcp_door::TcpDoor;
pub use tcp_link::TcpLink;
