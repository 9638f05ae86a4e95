// What the prover holds of a transfer of pads.

use std::marker::Model;

/// What the prover holds of a transfer: one of its two pads of 16 bytes, and the bit that says which one it is.
#[derive(Clone, Copy, PartialEq, Eq, Debug)]
pub struct Transfer {
    pub bit: bool,
    pub pad: [u8; 16],
}

impl Model for Transfer {
    ghost use Rattle.zk_model.specs.Files as files;

    ghost Value = { files.Transfer };

    ghost view = { λ transfer. record { bit = transfer.bit; pad = transfer.pad } };

    ghost inverse = { λ transfer. record { bit = transfer.bit; pad = transfer.pad } };
}
