//! Tests of leases, claims and services over disks in memory: stores that start where the last one closed, and threads that lease and
//! serve at once; and of the objects that stand for the outside on this machine. Calls that fail, crashes and damaged journals are
//! scenarios of `session_runs`.
//!
//! In `tests`, `machine_tests` has those of `lease_core`, `word_tests` those of `lease_words`, `lease_tests` those of `lease_store`,
//! `claim_tests` those of `claim_store`, `pool_tests` those of `session_pool` and `system_tests` those of `port_os`: real files, journals
//! and connections. `disks` has disks that tell nothing, `twin_disks` those with journals of claims, `ceiling_disks` those with journals
//! of ceilings. `noted` has words whose ceiling is kept in memory.
#![tactic(auto)]

#[cfg(test)]
mod tests;
