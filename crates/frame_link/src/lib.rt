//! Frames of a session over a link, and the log of all that passes (Weng, Yang, Katz and Wang, Wolverine, IEEE S&P 2021; Yang,
//! Sarkar, Weng and Wang, QuickSilver, ACM CCS 2021). Each receive asks for no more bytes than the frame under way still
//! wants, and takes one at least, or the stream has ended.
#![tactic(auto)]

mod fault;
mod line;
mod log;
mod writer;

pub use fault::LineFault;
pub use line::Line;
pub use log::{Log, Run};
