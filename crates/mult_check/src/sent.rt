// The sums that a prover sent.
use mersenne_field::Fe;

/// The sums U and V that a prover sent for every section, and what a verifier checks them by beside the keys of the products: how many
/// products a section has, the challenge, the key of each section's mask, and the global key.
#[derive(Clone, Copy, Debug)]
pub struct SentSums<'a> {
    pub section_length: u64,
    pub challenge: Fe,
    pub mask_keys: &'a [Fe],
    pub key: Fe,
    pub sums: &'a [(Fe, Fe)],
}
