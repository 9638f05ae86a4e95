// Two blocks of 16 bytes.
ghost use Rattle.std.specs.Prelude.{◌≡◌, replicate};
ghost use Rattle.zk_model.specs.Extension.{choice_of};

use std::marker::Model;

/// Two blocks of 16 bytes, a left one and a right one: two messages or two pads of a transfer, or the sums of the left nodes and of
/// the right ones of a tree's level. Contracts see them as two lists of bytes.
#[derive(Clone, Copy, PartialEq, Eq, Debug)]
pub struct BlockPair {
    pub left: [u8; 16],
    pub right: [u8; 16],
}

impl Model for BlockPair {
    ghost use Rattle.zk_model.specs.Bytes.{LeftRight};

    ghost Value = { LeftRight };

    ghost view = { λ blocks. record { left = blocks.left; right = blocks.right } };

    ghost inverse = { λ blocks. record { left = blocks.left; right = blocks.right } };
}

impl BlockPair {
    /// Two blocks of zeros.
    pub fn zeros() -> Self
        ensures { result ≡ record { left = replicate 16 0; right = replicate 16 0 } }
    {
        BlockPair {
            left: [0; 16],
            right: [0; 16],
        }
    }

    /// The block that a bit names: the left one for 0 and the right one for 1.
    pub fn choice(&self, bit: bool) -> [u8; 16]
        ensures { result ≡ choice_of bit self.now }
    {
        if bit { self.right } else { self.left }
    }
}
