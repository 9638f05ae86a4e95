//! SHA-256 (FIPS 180-4, 6.2) of messages of 16 bytes, eight at a time: each word of the standard is a vector with one
//! lane for each message, and each of its functions works on all lanes at once.
//!
//! `digests` has `digest_eight`, `rounds` the schedule and the rounds of one block, `words` the standard's functions.
//!
//!     let digests = digest_eight(&[a, b, c, d]); // 32 bytes of each
#![tactic(auto)]

mod digests;
mod rounds;
mod words;

pub use digests::digest_eight;
