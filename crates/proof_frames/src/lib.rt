//! The frames of a session, and of an exchange with a broker of units, as bytes and back in pieces of any length. A frame is a
//! byte that says its kind, the length of its payload in 4 bytes, and the payload. Numbers have their low byte first, and an
//! element of the field has 8 bytes. The messages of a session are those of Wolverine (Weng, Yang, Katz and Wang, IEEE S&P 2021)
//! and QuickSilver (Yang, Sarkar, Weng and Wang, ACM CCS 2021); how they are spelled is this format's own.
//!
//! `frame` has `Frame`, `Hello` and `Grant`, `encoding` has `encode` and encoders of single frames. `decoder` has `Decoder`; `row`
//! has the kind and the fields of the frames at each place, `held` the bytes and elements of the frame under way, `rooms` the room
//! for what is handed out, `whole` makes the frame of them, `spelling` has values as bytes and trees from them. `laws` says that
//! bytes are one frame or have one first bad byte.
//!
//!     decoder.expect(Expect::Challenge)?;
//!     let taken = decoder.feed(piece)?;       // or BadFrame { place, kind }
//!     if let Some(frame) = decoder.next() { .. }
#![tactic(auto)]

mod decoder;
mod encoding;
mod frame;
mod held;
pub mod laws;
mod rooms;
mod row;
mod spelling;
mod whole;

pub use decoder::{BadFrame, Decoder};
pub use encoding::{
    encode, encode_asks, encode_elements, encode_grant, encode_hello, encode_replies, encode_sums,
    encode_verdict,
};
pub use frame::{Frame, Grant, Hello};
pub use zk_model::{Block, Expect, FrameKind, Out, Want};
