//! What both ends say of the trees of a unit when few dealt correlations become many (Boyle, Couteau, Gilboa, Ishai, Kohl,
//! Rindal and Scholl, Efficient Two-Round OT Extension and Silent Non-Interactive Secure Computation, 2019; Weng, Yang, Katz
//! and Wang, Wolverine, IEEE S&P 2021): the prover's ask for each tree, and the verifier's reply.
//!
//! `TreeAsk` has a flip for each level and the correction of the base value, `TreeReply` two masked messages for each level and the
//! offset of the leaves. `vole_extend` makes them, `proof_frames` spells them.
//!
//!     let ask = TreeAsk { flips, base_correction };
#![tactic(auto)]

use mersenne_field::Fe;
use std::marker::Model;
use zk_model::BlockPair;

/// What the prover asks for one tree: for each level, the root's children first, whether the verifier has to swap its pads;
/// and what is added to the value of the tree's base pair.
#[derive(Debug, Drop)]
pub struct TreeAsk {
    pub flips: Vec<bool>,
    pub base_correction: Fe,
}

impl Model for TreeAsk {
    ghost use Rattle.zk_model.specs.Transcript as transcript;

    ghost Value = { transcript.TreeAsk };

    ghost view = { λ ask. record { flips = ask.flips.items; base_correction = ask.base_correction } };
}

/// What the verifier replies for one tree: for each level, the root's children first, the XOR of its left nodes and that of
/// its right ones, each under a pad; and the tree's base key, as corrected, less all leaves.
#[derive(Debug, Drop)]
pub struct TreeReply {
    pub messages: Vec<BlockPair>,
    pub leaf_offset: Fe,
}

impl Model for TreeReply {
    ghost use Rattle.zk_model.specs.Transcript as transcript;

    ghost Value = { transcript.TreeReply };

    ghost view = { λ reply. record { messages = reply.messages.items; leaf_offset = reply.leaf_offset } };
}
