//! Laws on logs of sessions: each function takes nothing, does nothing, and ensures a statement.
#![tactic(auto)]

mod ariths;
mod circuits;
mod honest_ends;
mod honest_parties;
mod rounds;
mod serving;
mod truncation;

pub use ariths::{arith_is_proved, extracted_shows_elements, solved_is_proved};
pub use circuits::{circuit_is_proved, extracted_shows_outputs};
pub use honest_ends::{honest_answer, honest_log, honest_log_is_of_both, honest_verdict};
pub use honest_parties::{honest_turn, honest_turn_ends, honest_whole, honest_whole_is_accepted};
pub use rounds::{asks_are_in_range, replies_are_in_range};
pub use serving::served_session_exists;
pub use truncation::{cut_is_not_accepted, cut_is_not_whole, one_verdict_of_code, verdict_is_said};
