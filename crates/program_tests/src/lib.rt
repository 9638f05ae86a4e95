//! Tests of what takes objects or threads of its own. What a run's lines and status are stands in the lines of `session_runs`.
//!
//! `serve_tests` has services with peers that are honest over whichever units they are granted, some of which wait for each other, and
//! `party_tests` both ends in one process, over a connection: whole runs, through `run_zk`. `fan_tests` has the rounds of units,
//! and `many_workers` sums along a walk, which are the same by any number of workers; `trees` has trees that are grown at once and leaf by
//! leaf, `worked_values` a corrected wire, and slots; `broker_tests` a node and a broker, and the first bad byte of a want; `node_tests` whole
//! runs of a broker, and of a node that has its units of one. `given` has dealt files and journals, `made` small elements and programs,
//! `vectors` bytes that the program did not make.
#![tactic(auto)]

#[cfg(test)]
mod broker_tests;
#[cfg(test)]
mod fan_tests;
#[cfg(test)]
mod given;
#[cfg(test)]
mod made;
#[cfg(test)]
mod many_workers;
#[cfg(test)]
mod node_tests;
#[cfg(test)]
mod party_tests;
#[cfg(test)]
mod peers;
#[cfg(test)]
mod serve_tests;
#[cfg(test)]
mod trees;
#[cfg(test)]
mod vectors;
#[cfg(test)]
mod worked_values;
