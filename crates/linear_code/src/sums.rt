// Sums of base elements, which are reduced at their end.
ghost use Rattle.std.specs.Prelude.{◌≡◌, ◌+◌, ◌*◌, ◌%◌, ◌^◌, ◌<◌, ◌≤◌, length, sum_by, slice_index, All};
ghost use Rattle.zk_model.specs.Field.{prime};
ghost use Rattle.zk_model.specs.Mac.{values_of, macs_of};

use mersenne_field::{Fe, Pair};

/// The sum of the base elements at up to eight places, not reduced: it fits 64 bits.
pub(crate) fn base_sum(base: &[Fe], places: &[u16]) -> u64
    requires inside { All (λ place. place < length base.now) places.now }
    requires bounded { length places.now ≤ 8 }
    ensures sum { result ≡ sum_by (slice_index base.now) places.now }
    ensures bound { result ≤ length places.now * prime }
{
    let mut sum = 0;
    for place in places {
        sum += base[usize::from(*place)].value();
    }
    sum
}

/// The sum of values and that of MACs, not reduced.
#[derive(Clone, Copy)]
pub(crate) struct PairSums {
    pub x: u64,
    pub m: u64,
}

/// The sums of the base pairs at up to eight places.
pub(crate) fn pair_sums(base: &[Pair], places: &[u16]) -> PairSums
    requires inside { All (λ place. place < length base.now) places.now }
    requires bounded { length places.now ≤ 8 }
    ensures values { result.x ≡ sum_by (slice_index (values_of base.now)) places.now }
    ensures value_bound { result.x ≤ length places.now * prime }
    ensures macs { result.m ≡ sum_by (slice_index (macs_of base.now)) places.now }
    ensures mac_bound { result.m ≤ length places.now * prime }
{
    let mut sums = PairSums { x: 0, m: 0 };
    for place in places {
        let pair = base[usize::from(*place)];
        sums.x += pair.x.value();
        sums.m += pair.m.value();
    }
    sums
}

/// A number with the same remainder modulo the prime, and at most 7 above it: since 2^61 leaves the remainder 1, the high bits
/// are added to the low 61 bits.
fn folded(number: u64) -> u64
    ensures congruent { result % prime ≡ number % prime }
    ensures bound { result ≤ prime + 7 }
{
    (number & ((1 << 61) - 1)) + (number >> 61)
}

/// The element of the sum of eight elements, that of two and an entry.
pub(crate) fn total(eight: u64, two: u64, entry: Fe) -> Fe
    requires eight { eight ≤ 8 * prime }
    requires two { two ≤ 2 * prime }
    ensures { result ≡ (eight + two + entry) % prime }
{
    let sum = folded(eight) + two + entry.value();
    Fe::from_word(sum) + Fe::from_word(sum >> 61)
}
