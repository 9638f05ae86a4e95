//! The lease machine: how units are drawn, granted and claimed, so that none is granted twice, whatever crashes.
//!
//! Units are numbered from 0 up to a total. An era is the time from one start of the store to its next crash. In an era
//! passes draw spans of units, each after the one before, and a span is spent once its end is at most the ceiling that
//! is shown. A ceiling is written to the journal before it is shown, and the next era begins at the last one there.
#![tactic(auto)]

mod event;
mod lists;
mod reading;
mod running;
mod sharing;
mod state;
mod storing;

pub use event::{Drawn, Event, Moment};
pub use running::{leases_are_safe, run};
pub use state::State;
