// The functions of FIPS 180-4, 4.1.2, and one round, on eight messages side by side. Each is the standard's in each lane.
ghost use Rattle.std.specs.Prelude.{◌≡◌, ℕ, ◌+◌, ◌/◌, ◌^◌, ◌<◌, bit_and, bit_xor, slice_index};
ghost use Rattle.std.specs.Int.{bit_not, rotate_right, w32};
ghost use Rattle.sha2.specs.Sha256.{add32, add_state, big_sigma0, big_sigma1, ch, maj, round, small_sigma0, small_sigma1};
ghost use Rattle.sha_lanes.specs.Lanes.{lane};

use std::simd::u32x8;

/// A word in each lane.
#[inline(always)]
pub(crate) fn splat(x: u32) -> u32x8
    ensures { (j : ℕ) → j < 8 → slice_index result j ≡ x }
{
    u32x8::splat(x)
}

/// Sums modulo 2^32.
#[inline(always)]
pub(crate) fn add(x: u32x8, y: u32x8) -> u32x8
    ensures { (j : ℕ) → j < 8 → slice_index result j ≡ add32 (slice_index x j) (slice_index y j) }
{
    x + y
}

#[inline(always)]
fn xor(x: u32x8, y: u32x8) -> u32x8
    ensures { (j : ℕ) → j < 8 → slice_index result j ≡ bit_xor (slice_index x j) (slice_index y j) }
{
    x ^ y
}

#[inline(always)]
fn and(x: u32x8, y: u32x8) -> u32x8
    ensures { (j : ℕ) → j < 8 → slice_index result j ≡ bit_and (slice_index x j) (slice_index y j) }
{
    x & y
}

#[inline(always)]
fn not(x: u32x8) -> u32x8
    ensures { (j : ℕ) → j < 8 → slice_index result j ≡ bit_not w32 (slice_index x j) }
{
    !x
}

/// Words shifted to the right by so many bits.
#[inline(always)]
fn shift_right(x: u32x8, count: u32) -> u32x8
    requires { count < 32 }
    ensures { (j : ℕ) → j < 8 → slice_index result j ≡ slice_index x j / 2 ^ count }
{
    x >> u32x8::splat(count)
}

/// Words rotated to the right by so many bits.
#[inline(always)]
fn rotate_right(x: u32x8, count: u32) -> u32x8
    requires at_least_one { 0 < count }
    requires bounded { count < 32 }
    ensures { (j : ℕ) → j < 8 → slice_index result j ≡ rotate_right w32 (slice_index x j) count }
{
    (x >> u32x8::splat(count)) | (x << u32x8::splat(32 - count))
}

/// Ch.
#[inline(always)]
fn ch(x: u32x8, y: u32x8, z: u32x8) -> u32x8
    ensures { (j : ℕ) → j < 8
        → slice_index result j ≡ ch (slice_index x j) (slice_index y j) (slice_index z j) }
{
    xor(and(x, y), and(not(x), z))
}

/// Maj with one `and`. The `x ^ y` of a round is the `y ^ z` of the next, so that it is made once.
#[inline(always)]
fn maj(x: u32x8, y: u32x8, z: u32x8) -> u32x8
    ensures { (j : ℕ) → j < 8
        → slice_index result j ≡ maj (slice_index x j) (slice_index y j) (slice_index z j) }
{
    let upper = xor(x, y);
    let lower = xor(y, z);
    xor(y, and(upper, lower))
}

/// A word turned by `first` bits, by `second` more and by `third` more, added without carries. The rotations stand one
/// inside the other, as those of the lower case functions do: that takes fewer copies of `x` than to rotate it anew.
#[inline(always)]
fn turned(x: u32x8, first: u32, second: u32, third: u32) -> u32x8
    requires at_least_one { (0 < first) × (0 < second) × (0 < third) }
    requires bounded { first + second + third < 32 }
    ensures { (j : ℕ) → j < 8 → slice_index result j
        ≡ bit_xor (bit_xor (rotate_right w32 (slice_index x j) first)
        (rotate_right w32 (slice_index x j) (first + second)))
        (rotate_right w32 (slice_index x j) (first + second + third)) }
{
    let inner = xor(x, rotate_right(x, third));
    let outer = xor(x, rotate_right(inner, second));
    rotate_right(outer, first)
}

/// The upper case sigma 0.
#[inline(always)]
fn big_sigma0(x: u32x8) -> u32x8
    ensures { (j : ℕ) → j < 8 → slice_index result j ≡ big_sigma0 (slice_index x j) }
{
    turned(x, 2, 11, 9)
}

/// The upper case sigma 1.
#[inline(always)]
fn big_sigma1(x: u32x8) -> u32x8
    ensures { (j : ℕ) → j < 8 → slice_index result j ≡ big_sigma1 (slice_index x j) }
{
    turned(x, 6, 5, 14)
}

/// A word turned by `first` bits, by `second` more, and shifted by `lost`, added without carries.
#[inline(always)]
fn turned_and_shifted(x: u32x8, first: u32, second: u32, lost: u32) -> u32x8
    requires at_least_one { (0 < first) × (0 < second) }
    requires bounded { first + second < 32 }
    requires lost { lost < 32 }
    ensures { (j : ℕ) → j < 8 → slice_index result j
        ≡ bit_xor (bit_xor (rotate_right w32 (slice_index x j) first)
        (rotate_right w32 (slice_index x j) (first + second))) (slice_index x j / 2 ^ lost) }
{
    let inner = xor(x, rotate_right(x, second));
    let rotated = rotate_right(inner, first);
    xor(rotated, shift_right(x, lost))
}

/// The lower case sigma 0.
#[inline(always)]
pub(crate) fn small_sigma0(x: u32x8) -> u32x8
    ensures { (j : ℕ) → j < 8 → slice_index result j ≡ small_sigma0 (slice_index x j) }
{
    turned_and_shifted(x, 7, 11, 3)
}

/// The lower case sigma 1.
#[inline(always)]
pub(crate) fn small_sigma1(x: u32x8) -> u32x8
    ensures { (j : ℕ) → j < 8 → slice_index result j ≡ small_sigma1 (slice_index x j) }
{
    turned_and_shifted(x, 17, 2, 10)
}

/// The working variables after one more round (6.2.2, step 3), by its constant and its word of the schedule.
#[inline(always)]
pub(crate) fn next_state(state: [u32x8; 8], constant: u32x8, word: u32x8) -> [u32x8; 8]
    ensures { (j : ℕ) → j < 8
        → lane j result ≡ round (lane j state) (slice_index constant j) (slice_index word j) }
{
    let [a, b, c, d, e, f, g, h] = state;
    let sum = add(add(h, big_sigma1(e)), ch(e, f, g));
    let temp1 = add(add(sum, constant), word);
    let temp2 = add(big_sigma0(a), maj(a, b, c));
    [add(temp1, temp2), a, b, c, add(d, temp1), e, f, g]
}

/// The sum of a hash value and of the working variables (6.2.2, step 4).
#[inline(always)]
pub(crate) fn add_states(hash: [u32x8; 8], state: [u32x8; 8]) -> [u32x8; 8]
    ensures { (j : ℕ) → j < 8 → lane j result ≡ add_state (lane j hash) (lane j state) }
{
    [
        add(hash[0], state[0]),
        add(hash[1], state[1]),
        add(hash[2], state[2]),
        add(hash[3], state[3]),
        add(hash[4], state[4]),
        add(hash[5], state[5]),
        add(hash[6], state[6]),
        add(hash[7], state[7]),
    ]
}
