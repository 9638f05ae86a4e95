//! Tests of sessions about a claim that both ends hold with each other, turn by turn, of claims of honest size.
//!
//! `circuit_tests` has circuits, `poly_tests` polynomial constraints; `dialogue` holds a session, `units` leases and claims its units, `given` has
//! dealt files and digests.
#![tactic(auto)]

#[cfg(test)]
mod circuit_tests;
#[cfg(test)]
mod dialogue;
#[cfg(test)]
mod given;
#[cfg(test)]
mod poly_tests;
#[cfg(test)]
mod units;
