// Hash values as digests.
ghost use Rattle.std.specs.Prelude.{◌≡◌, ℕ, [], ◌<◌, slice_index_or};
ghost use Rattle.sha2.specs.Sha256.{digest_bytes, sha256};
ghost use Rattle.sha_lanes.specs.Lanes.{lane};

use crate::rounds::hash_values;
use std::simd::u32x8;

/// The digests of eight messages of 16 bytes under SHA-256 (FIPS 180-4, 6.2), in order.
pub fn digest_eight(messages: &[[u8; 16]; 8]) -> [[u8; 32]; 8]
    ensures { (j : ℕ) → j < 8 → slice_index_or result j [] ≡ sha256 (slice_index_or messages.now j []) }
{
    let hashes = hash_values(messages);
    [
        digest(hash_value(&hashes, 0)),
        digest(hash_value(&hashes, 1)),
        digest(hash_value(&hashes, 2)),
        digest(hash_value(&hashes, 3)),
        digest(hash_value(&hashes, 4)),
        digest(hash_value(&hashes, 5)),
        digest(hash_value(&hashes, 6)),
        digest(hash_value(&hashes, 7)),
    ]
}

/// The hash value in lane j.
#[inline(always)]
fn hash_value(hashes: &[u32x8; 8], j: usize) -> [u32; 8]
    requires { j < 8 }
    ensures { result ≡ lane j hashes.now }
{
    [
        hashes[0].to_array()[j],
        hashes[1].to_array()[j],
        hashes[2].to_array()[j],
        hashes[3].to_array()[j],
        hashes[4].to_array()[j],
        hashes[5].to_array()[j],
        hashes[6].to_array()[j],
        hashes[7].to_array()[j],
    ]
}

/// A hash value as bytes, the high byte of each word first.
#[inline(always)]
fn digest(hash: [u32; 8]) -> [u8; 32]
    ensures { result ≡ digest_bytes hash 8 }
{
    let mut bytes = [0; 32];
    for i in 0..8 {
        bytes[4 * i..4 * i + 4].copy_from_slice(&hash[i].to_be_bytes());
    }
    bytes
}
