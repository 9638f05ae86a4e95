//! A linear code that makes many authenticated values of few: each output is the sum of ten base elements, which a seed
//! chooses, and one entry of a noise vector (Yang, Weng, Lan, Zhang and Wang, Ferret, ACM CCS 2020; Weng, Yang, Katz and
//! Wang, Wolverine, IEEE S&P 2021). Values, MACs and keys go through the same sums, so that keys fit afterwards as they
//! did before.
//!
//! `code` has `Columns`, the columns of a code made once; `places` chooses base places from coins, `sums` adds up to eight
//! elements before it reduces.
//!
//!     let columns = Columns::new(alloc, &code_seed, base.len() as u32, noise.len())?;
//!     let keys = columns.apply(alloc, &base, &noise)?;
//!     let pairs = columns.apply_pairs(alloc, &base_pairs, &noise_pairs)?;
#![tactic(auto)]

mod code;
mod places;
mod sums;

ghost use Rattle.std.specs.Prelude.{◌≡◌, ◌^◌, ◌<◌, ◌≤◌, length, IfOk, vec_len};
ghost use Rattle.zk_model.specs.Extension.{code_column, code_outputs};
ghost use Rattle.zk_model.specs.declared.limits.TheConstants.{MAX_BASE};

pub use code::Columns;
use mersenne_field::Fe;
use std::alloc::{AllocError, Global};
use zk_coins::CoinBox;

/// The ten base places of output j, in order, repeats among them: words 10j to 10j + 9 of stream 0 of the coins under the
/// seed, each modulo the number of base elements. They are read in one go, and it takes no memory.
pub fn column(code_seed: &[u8; 32], base: u32, j: u64) -> [u32; 10]
    requires least { 10 ≤ base }
    requires at_most { base ≤ MAX_BASE }
    requires place { j < 2 ^ 26 }
    ensures { result ≡ code_column code_seed.now base j }
{
    let mut words = [0; 10];
    CoinBox::new(code_seed).words(0, 10 * j, &mut words);
    let mut column = [0; 10];
    for i in 0..10 {
        column[i] = (words[i] % u64::from(base)) as u32;
    }
    column
}

/// One output for each entry of noise: the sum of the base elements at its column, where a place that stands there twice
/// counts twice, and of the entry. Where more than one list goes through the code, make `Columns` once.
///
/// # Errors
///
/// Only where memory runs out.
pub fn apply(
    alloc: Global,
    code_seed: &[u8; 32],
    base: &[Fe],
    noise: &[Fe],
) -> Result<Vec<Fe>, AllocError>
    requires least { 10 ≤ length base.now }
    requires at_most { length base.now ≤ MAX_BASE }
    requires count { length noise.now ≤ 2 ^ 26 }
    ensures outputs { IfOk result (λ v. v.items ≡ code_outputs code_seed.now base.now noise.now) }
    ensures length { IfOk result (λ v. vec_len v ≡ length noise.now) }
{
    let columns = Columns::new(alloc, code_seed, base.len() as u32, noise.len())?;
    let outputs = columns.apply(alloc, base, noise)?;
    Ok(outputs)
}
