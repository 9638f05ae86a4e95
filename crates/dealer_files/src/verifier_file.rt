// The verifier's file.
ghost use Rattle.std.specs.Prelude.{◌≡◌, ◌+◌, ◌*◌, ◌-◌, ◌^◌, ◌<◌, ◌≤◌, ◌++◌, length, flat_map, IfOk, OnOk};
ghost use Rattle.zk_model.specs.Field.{from_word};
ghost use Rattle.zk_model.specs.Coins.{coin_word};
ghost use Rattle.zk_model.specs.Files.{IsVerifierFile, dealt_per_unit, span_dealt_keys, unit_pads, verifier_unit};
ghost use Rattle.zk_model.specs.FileBytes.{verifier_unit_bytes, verifier_file_bytes};
ghost use Rattle.dealer_files.specs.Flat.{verifier_of_parts, AreWhole};
ghost use Rattle.zk_model.specs.declared.limits.TheConstants.{MAX_DEALT_UNITS};

use crate::encoding::{push_digest, push_elements, push_header, push_pads};
use crate::head::{Head, file_length};
use crate::unit::{first_dealt, first_transfer};
use mersenne_field::Fe;
use std::alloc::{AllocError, Global};
use std::marker::Model;
use zk_coins::CoinBox;
use zk_model::{BlockPair, Params, Side, Span};

/// A verifier's file: an id, what it was made for, the key of the verifier's coins, the seed of the code (zero bytes in
/// kind direct), the verifier's one key, which is not 0, and for each unit keys of correlations and, in kind extended,
/// both pads of transfers. The file keeps within its limits; contracts see it unit by unit.
#[derive(Debug, Drop)]
pub struct VerifierFile {
    head: Head,
    key: Fe,
    keys: Vec<Fe>,
    pads: Vec<BlockPair>,
}

impl Model for VerifierFile {
    ghost use Rattle.zk_model.specs.Files as files;

    ghost Value = { files.VerifierFile };

    ghost use Rattle.zk_model.specs.Files.{IsVerifierFile};
    ghost use Rattle.dealer_files.specs.Flat.{verifier_of_parts, AreWhole};

    ghost view = { λ f. verifier_of_parts f.head f.key f.keys.items f.pads.items };

    ghost invariant = { λ f. IsVerifierFile
        (verifier_of_parts f.head f.key f.keys.items f.pads.items)
        × AreWhole f.head.params f.keys.items f.pads.items };
}

impl VerifierFile {
    /// The file of these parts.
    pub(crate) fn new(head: Head, key: Fe, keys: Vec<Fe>, pads: Vec<BlockPair>) -> Self
        requires file { IsVerifierFile
            (verifier_of_parts head key keys.items pads.items) }
        requires whole { AreWhole head.params keys.items pads.items }
        ensures { result ≡ verifier_of_parts head key keys.items pads.items }
    {
        VerifierFile {
            head,
            key,
            keys,
            pads,
        }
    }

    /// The id that both files of a pair have.
    pub fn id(&self) -> [u8; 32]
        ensures id { result ≡ self.now.id }
        ensures file { IsVerifierFile self.now }
    {
        self.head.id
    }

    /// What the file was made for.
    pub fn params(&self) -> Params
        ensures params { result ≡ self.now.params }
        ensures file { IsVerifierFile self.now }
    {
        self.head.params
    }

    /// The seed of the code, 32 zero bytes in kind direct.
    pub fn code_seed(&self) -> [u8; 32]
        ensures seed { result ≡ self.now.code_seed }
        ensures file { IsVerifierFile self.now }
    {
        self.head.code_seed
    }

    /// This side's coins.
    pub fn coins(&self) -> CoinBox
        ensures { result ≡ self.now.coin_key }
    {
        CoinBox::new(&self.head.coin_key)
    }

    /// How many units the file has.
    pub fn total(&self) -> u64
        ensures total { result ≡ self.now.params.total }
        ensures file { IsVerifierFile self.now }
    {
        self.head.params.total
    }

    /// The verifier's one key.
    pub fn key(&self) -> Fe
        ensures key { result ≡ self.now.key }
        ensures file { IsVerifierFile self.now }
    {
        self.key
    }

    /// The keys of the correlations that are dealt in the units of a span, unit by unit.
    pub fn keys(&self, span: Span) -> &[Fe]
        requires order { span.start ≤ span.end }
        requires within { span.end ≤ self.now.params.total }
        ensures keys { result.now ≡ span_dealt_keys self.now span }
        ensures count { length result.now ≡ dealt_per_unit self.now.params * (span.end - span.start) }
    {
        let start = first_dealt(&self.head.params, span.start);
        let end = first_dealt(&self.head.params, span.end);
        &self.keys[start..end]
    }

    /// The challenge of the session whose span starts at this unit.
    pub fn challenge(&self, unit: u64) -> Fe
        requires { unit ≤ MAX_DEALT_UNITS }
        ensures { result ≡ from_word (coin_word self.now.coin_key (4 * unit + 1) 0) }
    {
        Fe::from_word(self.coins().word(4 * unit + 1, 0))
    }

    /// Both pads of a unit's transfers, tree by tree, and in a tree level by level from the top.
    pub fn pads(&self, unit: u64) -> &[BlockPair]
        requires { unit < self.now.params.total }
        ensures pads { result.now ≡ unit_pads (verifier_unit self.now unit) }
        ensures count { length result.now ≡ self.now.params.trees * self.now.params.height }
    {
        let start = first_transfer(&self.head.params, unit);
        let end = first_transfer(&self.head.params, unit + 1);
        &self.pads[start..end]
    }

    /// The file as bytes: a header of 128 bytes, the key, a block for each unit, and the digest of all before it.
    pub fn encode(&self, alloc: Global) -> Result<Vec<u8>, AllocError>
        ensures { IfOk result (λ bytes. bytes.items ≡ verifier_file_bytes self.now) }
    {
        let length = file_length(Side::Verifier, &self.head.params) as usize;
        let mut bytes = Vec::with_capacity(alloc, length)?;
        push_header(&mut bytes, 1, &self.head)?;
        bytes.extend_from_slice(&self.key.to_le())?;
        self.push_units(&mut bytes)?;
        push_digest(&mut bytes)?;
        Ok(bytes)
    }

    /// Appends a block for each unit.
    fn push_units(&self, bytes: &mut Vec<u8>) -> Result<(), AllocError>
        ensures { OnOk result (bytes.new.items
            ≡ bytes.old.items ++ flat_map verifier_unit_bytes self.now.units) }
    {
        for unit in 0..self.head.params.total {
            let one = Span {
                start: unit,
                end: unit + 1,
            };
            push_elements(bytes, self.keys(one))?;
            push_pads(bytes, self.pads(unit))?;
        }
        Ok(())
    }
}
