// Base places, drawn from coins.
ghost use Rattle.std.specs.Prelude.{◌≡◌, ◌*◌, ◌+◌, ◌^◌, ◌<◌, ◌≤◌, ◌++◌, map, ◌%◌, IfOk, OnOk, vec_len};
ghost use Rattle.zk_coins.specs.Words.{coin_words};
ghost use Rattle.linear_code.specs.Codes.{places_of};
ghost use Rattle.zk_model.specs.declared.limits.TheConstants.{MAX_BASE};

use std::alloc::{AllocError, Global};
use zk_coins::CoinBox;

/// How many coins are drawn at once: those of 64 columns, which are whole blocks of the cipher.
const COINS_AT_ONCE: usize = 640;

/// The first base places of a code, column by column.
pub(crate) fn base_places(
    alloc: Global,
    code_seed: &[u8; 32],
    base: u32,
    count: usize,
) -> Result<Vec<u16>, AllocError>
    requires at_least_one { 0 < base }
    requires at_most { base ≤ MAX_BASE }
    requires bounded { count ≤ 2 ^ 30 }
    ensures places { IfOk result (λ v. v.items ≡ places_of code_seed.now base count) }
    ensures length { IfOk result (λ v. vec_len v ≡ count) }
{
    let coins = CoinBox::new(code_seed);
    let mut places = Vec::with_capacity(alloc, count)?;
    while places.len() < count {
        let more = COINS_AT_ONCE.min(count - places.len());
        draw_places(&coins, base, more, &mut places)?;
    }
    Ok(places)
}

/// Draws more places after those that there are.
fn draw_places(
    coins: &CoinBox,
    base: u32,
    more: usize,
    places: &mut Vec<u16>,
) -> Result<(), AllocError>
    requires at_least_one { 0 < base }
    requires at_most { base ≤ MAX_BASE }
    requires block { more ≤ 640 }
    ensures places { OnOk result (places.new.items
        ≡ places.old.items ++ map (λ word. word % base) (coin_words coins.now 0 (vec_len places.old) more)) }
    ensures length { OnOk result (vec_len places.new ≡ vec_len places.old + more) }
{
    let mut block = [0; COINS_AT_ONCE];
    let words = &mut block[..more];
    coins.words(0, places.len() as u64, words);
    for word in words.iter() {
        places.push((*word % u64::from(base)) as u16)?;
    }
    Ok(())
}
