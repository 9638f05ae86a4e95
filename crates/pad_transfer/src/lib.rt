//! A transfer of one of two messages of 16 bytes, over a transfer of random pads that was dealt before (Beaver,
//! Precomputing Oblivious Transfer, 1995). The sender has two pads, and the receiver a bit and the pad that it names.
//! The receiver asks for a message by `ask`, the sender answers by `reply`, and the receiver reads the answer by
//! `unmask`: the message that it chose, while the other one stays under the pad that it does not have.
//!
//! `laws` says that the message is the chosen one.
//!
//!     let flip = ask(dealt, choice);
//!     let masked = reply(left_pad, right_pad, flip, &left, &right);
//!     let chosen = unmask(&pad, choice, &masked);
#![tactic(auto)]

mod laws;

ghost use Rattle.std.specs.Prelude.{◌≡◌};
ghost use Rattle.zk_model.specs.Bytes.{LeftRight, xor_bytes};
ghost use Rattle.zk_model.specs.Extension.{flip_for, masked_messages, unmasked_message};

pub use laws::chosen_is_unmasked;
use zk_model::BlockPair;

/// What the receiver asks: its choice, hidden by the bit of its pad. It is true where the sender has to swap its pads.
pub fn ask(dealt: bool, choice: bool) -> bool
    ensures { result ≡ flip_for dealt choice }
{
    dealt ^ choice
}

/// What the sender answers: each message under a pad, the left message under the left pad, or under the right one
/// where the receiver asked to swap them.
pub fn reply(
    left_pad: &[u8; 16],
    right_pad: &[u8; 16],
    flip: bool,
    left: &[u8; 16],
    right: &[u8; 16],
) -> BlockPair
    ensures { let pads : LeftRight = record { left = left_pad.now; right = right_pad.now } in
        let messages : LeftRight = record { left = left.now; right = right.now } in
        result ≡ masked_messages pads flip messages }
{
    let (first, second) = if flip {
        (right_pad, left_pad)
    } else {
        (left_pad, right_pad)
    };
    BlockPair {
        left: xored(left, first),
        right: xored(right, second),
    }
}

/// The message that the receiver chose, its pad taken off.
pub fn unmask(pad: &[u8; 16], choice: bool, masked: &BlockPair) -> [u8; 16]
    ensures { result ≡ unmasked_message pad.now choice masked.now }
{
    xored(&masked.choice(choice), pad)
}

/// The XOR of two texts of 16 bytes, byte by byte.
fn xored(left: &[u8; 16], right: &[u8; 16]) -> [u8; 16]
    ensures { result ≡ xor_bytes left.now right.now }
{
    let mut bytes = *left;
    for i in 0..16 {
        bytes[i] ^= right[i];
    }
    bytes
}
