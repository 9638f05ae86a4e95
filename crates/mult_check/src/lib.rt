//! The batched check of products and the openings of wires: what a prover sends, and what a verifier tests (Yang, Sarkar,
//! Weng and Wang, QuickSilver, ACM CCS 2021).
//!
//! `parts` has the sums of parts of a list of products, on either side, and of one section; `sections` has `prover_sums` and
//! `check`, over all sections of wires that are held; `streams` has `stream_sums` and `stream_check`, the same along walks that hold
//! a block of products at most, by so many workers, and `sums_along` and `check_along`, by one thread that holds none; `walked` has what
//! these have in common, and `sent` what a check along a walk is over; `openings` has `check_openings`; `left_sides` both checks in two
//! parts, of which the first needs no sums and no openings.
//!
//!     let sums = prover_sums(alloc, &wires, g, challenge, masks)?;  // at the prover
//!     check(&wires, g, challenge, mask_keys, key, &sums)?;          // at the verifier: or the first section that differs
//!     check_openings(&wires, key, &openings, claims)?;
//!
//!     let sums = stream_sums(rt, alloc, &mut walk, g, challenge, masks, workers)?;
//!     stream_check(rt, alloc, &mut walk, &SentSums { section_length: g, challenge, mask_keys, key, sums: &sums }, workers)?;
#![tactic(auto)]

mod fault;
mod left_sides;
mod openings;
mod parts;
mod sections;
mod sent;
mod streams;
mod walked;

pub use fault::StreamFault;
pub use left_sides::{check_left_sides, check_opened_keys, left_sides_along, opened_keys_along};
pub use openings::{OpeningDiffers, check_openings, openings_along};
pub use parts::{ProverPart, VerifierPart, section_left, section_sums};
pub use sections::{Differs, check, prover_sums};
pub use sent::SentSums;
pub use streams::{check_along, stream_check, stream_sums, sums_along};
