//! The two files that a trusted dealer makes of a seed: correlations for a prover and a verifier (vector OLE: Weng, Yang,
//! Katz and Wang, Wolverine, IEEE S&P 2021), with the pads of the transfers by which few of them become many.
//!
//! `dealing` has `deal`, `dealt_files` the test `dealt`; `prover_file` and `verifier_file` have the files and their parts, with
//! `transfer` and `unit` for what a unit has. `encoding` writes files as bytes. `decoding` reads them, with `head` for a header
//! and `reading` for items; `fault` has why bytes are none.
//!
//!     let (prover, verifier) = deal(alloc, &params, &seed)?;
//!     dealt(&prover, &verifier)?;
//!     let bytes = verifier.encode(alloc)?;
//!     let read = decode_verifier(alloc, &bytes)?; // the same file
#![tactic(auto)]

mod dealing;
mod dealt_files;
mod decoding;
mod encoding;
mod fault;
mod head;
mod prover_file;
mod reading;
mod transfer;
mod unit;
mod verifier_file;

pub use dealing::deal;
pub use dealt_files::{NotDealt, dealt};
pub use decoding::{decode_prover, decode_verifier};
pub use fault::FileFault;
pub use head::file_length;
pub use prover_file::ProverFile;
pub use transfer::Transfer;
pub use verifier_file::VerifierFile;
