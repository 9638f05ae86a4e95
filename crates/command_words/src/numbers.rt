// Numbers of the command line.
ghost use Rattle.std.specs.Prelude.{◌≡◌, ◌+◌, ◌-◌, ◌*◌, ◌^◌, ◌≤◌, min, IfSome};
ghost use Rattle.std.specs.List.{list_all};
ghost use Rattle.zk_model.specs.Bristol.{decimal_value, is_digit};
ghost use Rattle.command_words.specs.Numbers.{is_number, number_within};

/// Whether each byte is a digit.
fn are_digits(bytes: &[u8]) -> bool
    ensures { result ≡ list_all is_digit bytes.now }
{
    bytes.iter().all(|c| c.is_ascii_digit())
}

/// Whether the word is one or more digits.
fn is_number(word: &str) -> bool
    ensures { result ≡ is_number word.now }
{
    !word.is_empty() && are_digits(word.as_bytes())
}

/// The number with one more digit after it, or `most` where that is larger.
fn then_digit(value: u128, c: u8, most: u128) -> u128
    ensures { result ≡ min (10 * value + (c - 48)) most }
{
    let digit = u128::from(c.saturating_sub(b'0'));
    value.saturating_mul(10).saturating_add(digit).min(most)
}

/// The number that these bytes say as digits, or `most` where it is larger.
fn capped_value(word: &[u8], most: u128) -> u128
    ensures { result ≡ min (decimal_value word.now) most }
{
    let mut value: u128 = 0;
    for c in word {
        value = then_digit(value, *c, most);
    }
    value
}

/// The number that the digits of the word say, however many zeros lead it, where it lies between `low` and
/// `high`.
pub fn read_number(word: &str, low: u64, high: u64) -> Option<u64>
    ensures number { result ≡ number_within low high word.now }
    ensures at_most { IfSome result (λ number. number ≤ high) }
    ensures least { IfSome result (λ number. low ≤ number) }
{
    if !is_number(word) {
        return None;
    }
    let value = capped_value(word.as_bytes(), u128::from(high) + 1);
    if u128::from(low) <= value && value <= u128::from(high) {
        Some(value as u64)
    } else {
        None
    }
}
