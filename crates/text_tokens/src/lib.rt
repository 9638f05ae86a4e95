//! A text, token by token. Tokens stand between blanks: spaces, tabs, carriage returns and line feeds.
//!
//! `tokens` has `Tokens`, which gives the next token as a number or a name. `numbers` reads a short number at once, and `blanks` skips
//! blanks, for readers that take a whole line from a slice of their own and then move on.
//!
//!     let mut tokens = Tokens::new(text);
//!     match tokens.next() { Next::Number(n) => .., Next::Name(name) => .., Next::End => .. }
#![tactic(auto)]

mod blanks;
mod numbers;
mod tokens;

pub use blanks::{is_blank, skip_blanks};
pub use numbers::{next_token, short_number};
pub use tokens::{Next, Tokens};
