//! The lease words: three shared words by which threads draw spans of units, see how far they may be granted, and learn
//! that the journal failed. No call waits.
//!
//! Word 0 is the unit after the last one drawn, word 1 the ceiling shown, word 2 the journal's mark, 0 while it has not
//! failed. They lie in a table of `atomic_table`, under the rule `MetRule`; of its core, `LeaseRule`, `rule_is_leased` says
//! what it means.
#![tactic(auto)]

mod fault;
mod gathering;
mod keeper;
mod keeping;
mod laws;
mod making;
mod pass;
mod receipts;
mod rule;
mod table;
mod view;
mod words;

pub use fault::Exhausted;
pub use keeper::Keeper;
pub use laws::{
    grants_are_events, other_steps_are_no_events, puts_are_events, rule_is_leased,
    steps_are_events, stops_are_events,
};
pub use making::start;
pub use pass::{FaultWord, JournalSeat, Pass, Receipt};
pub use rule::Leases;
pub use table::Words;
pub use view::{Bounds, Entry, Key, Report, View};
