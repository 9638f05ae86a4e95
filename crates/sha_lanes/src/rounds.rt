// The schedule and the rounds of FIPS 180-4, 6.2.2, on eight messages side by side.
ghost use Rattle.std.specs.Prelude.{◌≡◌, ℕ, List, [], ◌+◌, ◌*◌, ◌<◌, ◌≤◌, length, slice_index, slice_index_or};
ghost use Rattle.sha2.specs.Sha256.{compress, initial_hash_256, padded_message, round_constants, schedule, word_at};
ghost use Rattle.sha_lanes.specs.Lanes.{IsAfterRounds, IsRoundsAt, IsScheduled, lane, lane_at};

use crate::words::{add, add_states, next_state, small_sigma0, small_sigma1, splat};
use std::simd::u32x8;

/// The constant of each round (4.2.2), once for each lane.
static CONSTANTS: [[u32; 8]; 64] = [
    [0x428a_2f98; 8],
    [0x7137_4491; 8],
    [0xb5c0_fbcf; 8],
    [0xe9b5_dba5; 8],
    [0x3956_c25b; 8],
    [0x59f1_11f1; 8],
    [0x923f_82a4; 8],
    [0xab1c_5ed5; 8],
    [0xd807_aa98; 8],
    [0x1283_5b01; 8],
    [0x2431_85be; 8],
    [0x550c_7dc3; 8],
    [0x72be_5d74; 8],
    [0x80de_b1fe; 8],
    [0x9bdc_06a7; 8],
    [0xc19b_f174; 8],
    [0xe49b_69c1; 8],
    [0xefbe_4786; 8],
    [0x0fc1_9dc6; 8],
    [0x240c_a1cc; 8],
    [0x2de9_2c6f; 8],
    [0x4a74_84aa; 8],
    [0x5cb0_a9dc; 8],
    [0x76f9_88da; 8],
    [0x983e_5152; 8],
    [0xa831_c66d; 8],
    [0xb003_27c8; 8],
    [0xbf59_7fc7; 8],
    [0xc6e0_0bf3; 8],
    [0xd5a7_9147; 8],
    [0x06ca_6351; 8],
    [0x1429_2967; 8],
    [0x27b7_0a85; 8],
    [0x2e1b_2138; 8],
    [0x4d2c_6dfc; 8],
    [0x5338_0d13; 8],
    [0x650a_7354; 8],
    [0x766a_0abb; 8],
    [0x81c2_c92e; 8],
    [0x9272_2c85; 8],
    [0xa2bf_e8a1; 8],
    [0xa81a_664b; 8],
    [0xc24b_8b70; 8],
    [0xc76c_51a3; 8],
    [0xd192_e819; 8],
    [0xd699_0624; 8],
    [0xf40e_3585; 8],
    [0x106a_a070; 8],
    [0x19a4_c116; 8],
    [0x1e37_6c08; 8],
    [0x2748_774c; 8],
    [0x34b0_bcb5; 8],
    [0x391c_0cb3; 8],
    [0x4ed8_aa4a; 8],
    [0x5b9c_ca4f; 8],
    [0x682e_6ff3; 8],
    [0x748f_82ee; 8],
    [0x78a5_636f; 8],
    [0x84c8_7814; 8],
    [0x8cc7_0208; 8],
    [0x90be_fffa; 8],
    [0xa450_6ceb; 8],
    [0xbef9_a3f7; 8],
    [0xc671_78f2; 8],
];

/// The hash value of each message.
#[inline(always)]
pub(crate) fn hash_values(messages: &[[u8; 16]; 8]) -> [u32x8; 8]
    ensures value { (j : ℕ) → j < 8
        → lane j result ≡ compress initial_hash_256 (padded_message (slice_index_or messages.now j [])) }
    ensures long { (j : ℕ) → j < 8 → length (slice_index_or messages.now j []) ≡ 16 }
{
    let start = initial_hashes();
    let zero = splat(0);
    // The first 32 rounds are written out over words of their own, which the compiler keeps apart: what follows from
    // the padding alone is computed as it compiles.
    let mut head = [zero; 32];
    first_words(messages, &mut head);
    let state = first_four_rounds(&head, start, 0);
    let state = first_four_rounds(&head, state, 4);
    let state = first_four_rounds(&head, state, 8);
    let state = first_four_rounds(&head, state, 12);
    let state = four_rounds(&mut head, state, 16);
    let state = four_rounds(&mut head, state, 20);
    let state = four_rounds(&mut head, state, 24);
    let mut state = four_rounds(&mut head, state, 28);
    let mut words = [zero; 64];
    words[..32].copy_from_slice(&head);
    // After eight rounds each working variable is back in its register.
    for turn in 4..8 {
        let half = four_rounds(&mut words, state, 8 * turn);
        let whole = four_rounds(&mut words, half, 8 * turn + 4);
        state = whole;
    }
    add_states(start, state)
}

/// The initial hash value (5.3.3).
#[inline(always)]
fn initial_hashes() -> [u32x8; 8]
    ensures { (j : ℕ) → j < 8 → lane j result ≡ initial_hash_256 }
{
    [
        splat(0x6a09_e667),
        splat(0xbb67_ae85),
        splat(0x3c6e_f372),
        splat(0xa54f_f53a),
        splat(0x510e_527f),
        splat(0x9b05_688c),
        splat(0x1f83_d9ab),
        splat(0x5be0_cd19),
    ]
}

/// Writes the first 16 words of each schedule: the message, and the padding (5.1.1) of 16 bytes, which are 128 bits.
#[inline(always)]
fn first_words(messages: &[[u8; 16]; 8], words: &mut [u32x8; 32])
    ensures value { (j k : ℕ) → j < 8 → k < 16
        → lane_at words.new k j ≡ word_at (padded_message (slice_index_or messages.now j [])) (4 * k) }
    ensures long { (j : ℕ) → j < 8 → length (slice_index_or messages.now j []) ≡ 16 }
{
    let zero = splat(0);
    let block = [
        message_word(messages, 0),
        message_word(messages, 1),
        message_word(messages, 2),
        message_word(messages, 3),
        splat(0x8000_0000),
        zero,
        zero,
        zero,
        zero,
        zero,
        zero,
        zero,
        zero,
        zero,
        zero,
        splat(128),
    ];
    words[..16].copy_from_slice(&block);
}

/// Word k of each message.
#[inline(always)]
fn message_word(messages: &[[u8; 16]; 8], k: usize) -> u32x8
    requires { k < 4 }
    ensures value { (j : ℕ) → j < 8
        → slice_index result j ≡ word_at (slice_index_or messages.now j []) (4 * k) }
    ensures long { (j : ℕ) → j < 8 → length (slice_index_or messages.now j []) ≡ 16 }
{
    u32x8::from_array([
        read_word(&messages[0], 4 * k),
        read_word(&messages[1], 4 * k),
        read_word(&messages[2], 4 * k),
        read_word(&messages[3], 4 * k),
        read_word(&messages[4], 4 * k),
        read_word(&messages[5], 4 * k),
        read_word(&messages[6], 4 * k),
        read_word(&messages[7], 4 * k),
    ])
}

/// The word of four bytes of a message from a place on, the high one first.
#[inline(always)]
fn read_word(message: &[u8; 16], place: usize) -> u32
    requires { place + 4 ≤ 16 }
    ensures value { result ≡ word_at message.now place }
    ensures long { length message.now ≡ 16 }
{
    u32::from_be_bytes([
        message[place],
        message[place + 1],
        message[place + 2],
        message[place + 3],
    ])
}

/// Four of the first 16 rounds, whose words are the block's.
#[inline(always)]
fn first_four_rounds(words: &[u32x8], state: [u32x8; 8], count: usize) -> [u32x8; 8]
    requires place { count + 4 ≤ 16 }
    requires long { 16 ≤ length words.now }
    ensures { (j : ℕ) → j < 8 → (block hash : List ℕ) → IsScheduled block words.now j 16
        → IsAfterRounds block hash state j count → IsAfterRounds block hash result j (count + 4) }
{
    let state = first_round(words, state, count);
    let state = first_round(words, state, count + 1);
    let state = first_round(words, state, count + 2);
    first_round(words, state, count + 3)
}

/// One of the first 16 rounds, after so many.
#[inline(always)]
fn first_round(words: &[u32x8], state: [u32x8; 8], count: usize) -> [u32x8; 8]
    requires place { count < 16 }
    requires long { 16 ≤ length words.now }
    ensures { (j : ℕ) → j < 8 → (block hash : List ℕ) → IsScheduled block words.now j 16
        → IsAfterRounds block hash state j count → IsAfterRounds block hash result j (count + 1) }
{
    next_state(state, constant(count), words[count])
}

/// Four of the rounds from 16 on.
#[inline(always)]
fn four_rounds(words: &mut [u32x8], state: [u32x8; 8], count: usize) -> [u32x8; 8]
    requires low { 16 ≤ count }
    requires high { count + 4 ≤ 64 }
    requires room { count + 4 ≤ length words.old }
    ensures { (j : ℕ) → j < 8 → (block hash : List ℕ) → IsRoundsAt block hash words.old state j count
        → IsRoundsAt block hash words.new result j (count + 4) }
{
    let state = later_round(words, state, count);
    let state = later_round(words, state, count + 1);
    let state = later_round(words, state, count + 2);
    later_round(words, state, count + 3)
}

/// One of the rounds from 16 on, after so many, with its word of the schedule.
#[inline(always)]
fn later_round(words: &mut [u32x8], state: [u32x8; 8], count: usize) -> [u32x8; 8]
    requires low { 16 ≤ count }
    requires high { count < 64 }
    requires room { count < length words.old }
    ensures { (j : ℕ) → j < 8 → (block hash : List ℕ) → IsRoundsAt block hash words.old state j count
        → IsRoundsAt block hash words.new result j (count + 1) }
{
    let word = next_word(words, count);
    next_state(state, constant(count), word)
}

/// Writes the next word of each schedule, and gives it.
#[inline(always)]
fn next_word(words: &mut [u32x8], count: usize) -> u32x8
    requires low { 16 ≤ count }
    requires high { count < 64 }
    requires room { count < length words.old }
    ensures { (j : ℕ) → j < 8 → (block : List ℕ) → IsScheduled block words.old j count
        → IsScheduled block words.new j (count + 1)
        × (slice_index result j ≡ slice_index (schedule block 48) count) }
{
    let older = add(small_sigma1(words[count - 2]), words[count - 7]);
    let word = add(
        add(older, small_sigma0(words[count - 15])),
        words[count - 16],
    );
    words[count] = word;
    word
}

/// The constant of the round after so many.
#[inline(always)]
fn constant(count: usize) -> u32x8
    requires { count < 64 }
    ensures { (j : ℕ) → j < 8 → slice_index result j ≡ slice_index round_constants count }
{
    u32x8::from_array(CONSTANTS[count])
}
