//! Laws of frames as bytes: which codes are read back uniquely, and that a log has one transcript. Functions take nothing, do
//! nothing, and ensure a statement; the lemmas below them are for crates above.
//!
//! `transcripts` has the law.
//!
//!     one_transcript(); // from here on, logs that are spelled alike have one transcript
#![tactic(auto)]

mod transcripts;

pub use transcripts::one_transcript;
