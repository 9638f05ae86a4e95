//! The words of a command line: which command they ask for, and the word of a list of bits.
//!
//! `words` has `read_words`; `table` has the commands as a table, a row of each; `found` has clap find a command's words in places and its
//! options, and `reading` reads what these ask for, as the records of `asks`; `numbers` and `bits` read single words; `help` has the help
//! texts; `laws` says in plain terms which words have which meaning. A `Command<BitsWord>` is as the words give it: bits as `0110`, or the
//! file that has them as `@NAME`. A crate above loads these files, and has a `Command<Vec<bool>>`. As the top call uses it:
//!
//!     let Some(command) = read_words(alloc, words)? else {
//!         return say_stop(alloc, out, Refusal::Usage);
//!     };
#![tactic(auto)]

mod asks;
mod bits;
mod found;
mod help;
mod laws;
mod numbers;
mod reading;
mod table;
mod words;

pub use asks::{
    Ask, AuditArithAsk, AuditAsk, BrokerAsk, Command, DealAsk, EvalAsk, GenerateAsk, MAX_SESSIONS,
    MigrateAsk, NodeAsk, ProveArithAsk, ProveAsk, ProvePolyAsk, RehearseArithAsk, RehearseAsk,
    RehearsePolyAsk, ServeArithAsk, ServeAsk, ServeManyAsk, ServeNodeAsk, ServeOptions,
    ServePolyAsk, StatusAsk,
};
pub use bits::{BitsWord, read_bits, read_bits_word, write_bits};
pub use help::help_text;
pub use laws::words_stand_so;
pub use words::read_words;
