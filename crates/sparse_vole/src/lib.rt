//! A vector of authenticated values that are 0 at all places but one, made of a dealt pair and the leaves of a tree
//! (Boyle, Couteau, Gilboa, Ishai, Kohl, Rindal and Scholl, Efficient Two-Round OT Extension and Silent
//! Non-Interactive Secure Computation, 2019; Weng, Yang, Katz and Wang, Wolverine, IEEE S&P 2021). The verifier knows
//! all leaves, and they become its keys. The prover knows all leaves but the one at a place that it chose: they become
//! MACs of 0, and the dealt pair, corrected to a value that it chose, gives the MAC of that value at the place.
//!
//! `laws` says that at every place the verifier's leaf is the key of the prover's entry.
//!
//!     let e = prover_ask(noise, base.x);                                     // the prover sends it
//!     let offset = verifier_reply(base_key, e, key, &leaves);                // the verifier answers,
//!     let offset = verifier_reply_sum(base_key, e, key, leaf_sum);           // or so, from their sum, by `sum_of_leaves` or a walk
//!     let entries = prover_finish(alloc, place, noise, base.m, offset, &found)?;
#![tactic(auto)]

mod laws;

ghost use Rattle.std.specs.Prelude.{◌≡◌, ℕ, ◌%◌, ◌<◌, List, length, map, sum, IfOk, vec_len};
ghost use Rattle.std.specs.List.{enumerate_from};
ghost use Rattle.zk_model.specs.Field.{prime, ◌+ₚ◌, ◌-ₚ◌};
ghost use Rattle.zk_model.specs.Extension.{leaf_offset_of};
ghost use Rattle.zk_model.specs.Mac.{corrected_key};
ghost use Rattle.sparse_vole.specs.Noise.{IsNoise, entry_at};

pub use laws::noise_keeps_keys;
use mersenne_field::{Fe, Pair};
use std::alloc::{AllocError, Global};

/// What the prover asks: the correction of a dealt pair of the value `base` to one of the value `noise`.
pub fn prover_ask(noise: Fe, base: Fe) -> Fe
    ensures difference { result ≡ noise -ₚ base }
    ensures corrects { base +ₚ result ≡ noise }
{
    let _element = noise.value();
    noise - base
}

/// The sum of leaves.
pub fn sum_of_leaves(leaves: &[Fe]) -> Fe
    ensures { result ≡ sum leaves.now % prime }
{
    let mut sum = Fe::ZERO;
    for leaf in leaves {
        sum = sum + *leaf;
    }
    sum
}

/// What the verifier answers, from the key of the dealt pair, the correction that was asked, its one key, and all leaves:
/// the corrected key less the leaves.
pub fn verifier_reply(base_key: Fe, correction: Fe, key: Fe, leaves: &[Fe]) -> Fe
    ensures { result ≡ leaf_offset_of key base_key correction leaves.now }
{
    verifier_reply_sum(base_key, correction, key, sum_of_leaves(leaves))
}

/// The same from the sum of the leaves, for a verifier that holds no list of them.
pub fn verifier_reply_sum(base_key: Fe, correction: Fe, key: Fe, leaf_sum: Fe) -> Fe
    ensures difference { result ≡ corrected_key key base_key correction -ₚ leaf_sum }
    ensures reply { (leaves : List ℕ) → leaf_sum ≡ sum leaves % prime
        → result ≡ leaf_offset_of key base_key correction leaves }
{
    base_key + correction * key - leaf_sum
}

/// The noise vector of the prover: at the place `alpha` the value `noise`, whose MAC is that of the dealt pair less the
/// verifier's answer and all leaves, and elsewhere 0, whose MAC is the leaf. There is one leaf for each place; the one at
/// `alpha`, which the prover does not know, is given as 0.
///
/// # Errors
///
/// Only where memory runs out.
pub fn prover_finish(
    alloc: Global,
    alpha: u32,
    noise: Fe,
    base_mac: Fe,
    leaf_offset: Fe,
    leaves: &[Fe],
) -> Result<Vec<Pair>, AllocError>
    requires { alpha < length leaves.now }
    ensures noise { IfOk result (λ v. IsNoise alpha noise base_mac leaf_offset leaves.now v.items) }
    ensures length { IfOk result (λ v. vec_len v ≡ length leaves.now) }
{
    let hidden = Pair {
        x: noise,
        m: base_mac - leaf_offset - sum_of_leaves(leaves),
    };
    let vector = entries(alloc, alpha as usize, hidden, leaves)?;
    Ok(vector)
}

/// The pairs at all places, in order.
fn entries(
    alloc: Global,
    alpha: usize,
    hidden: Pair,
    leaves: &[Fe],
) -> Result<Vec<Pair>, AllocError>
    ensures entries { IfOk result (λ v. v.items ≡ map (entry_at alpha hidden) (enumerate_from 0 leaves.now)) }
    ensures length { IfOk result (λ v. vec_len v ≡ length leaves.now) }
{
    leaves
        .iter()
        .enumerate()
        .map(|(place, leaf)| entry(place, alpha, hidden, *leaf))
        .collect(alloc)
}

/// The pair at a place: the hidden one at `alpha`, and elsewhere 0 under the leaf.
fn entry(place: usize, alpha: usize, hidden: Pair, leaf: Fe) -> Pair
    ensures { result ≡ entry_at alpha hidden (place, leaf) }
{
    if place == alpha {
        hidden
    } else {
        Pair {
            x: Fe::ZERO,
            m: leaf,
        }
    }
}
