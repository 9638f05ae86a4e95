// The prover's file.
ghost use Rattle.std.specs.Prelude.{◌≡◌, ◌*◌, ◌-◌, ◌<◌, ◌≤◌, ◌++◌, length, flat_map, IfOk, OnOk};
ghost use Rattle.zk_model.specs.Files.{IsProverFile, dealt_per_unit, prover_unit, span_pairs, unit_transfers};
ghost use Rattle.zk_model.specs.FileBytes.{prover_unit_bytes, prover_file_bytes};
ghost use Rattle.dealer_files.specs.Flat.{prover_of_parts, AreWhole};

use crate::encoding::{push_digest, push_header, push_pairs, push_transfers};
use crate::head::{Head, file_length};
use crate::transfer::Transfer;
use crate::unit::{first_dealt, first_transfer};
use mersenne_field::Pair;
use std::alloc::{AllocError, Global};
use std::marker::Model;
use zk_coins::CoinBox;
use zk_model::{Params, Side, Span};

/// A prover's file: an id, what it was made for, the key of the prover's coins, the seed of the code (zero bytes in kind
/// direct), and for each unit pairs of a value and its MAC and, in kind extended, transfers. The file keeps within its
/// limits; contracts see it unit by unit.
#[derive(Debug, Drop)]
pub struct ProverFile {
    head: Head,
    pairs: Vec<Pair>,
    transfers: Vec<Transfer>,
}

impl Model for ProverFile {
    ghost use Rattle.zk_model.specs.Files as files;

    ghost Value = { files.ProverFile };

    ghost use Rattle.zk_model.specs.Files.{IsProverFile};
    ghost use Rattle.dealer_files.specs.Flat.{prover_of_parts, AreWhole};

    ghost view = { λ f. prover_of_parts f.head f.pairs.items f.transfers.items };

    ghost invariant = { λ f. IsProverFile
        (prover_of_parts f.head f.pairs.items f.transfers.items)
        × AreWhole f.head.params f.pairs.items f.transfers.items };
}

impl ProverFile {
    /// The file of these parts.
    pub(crate) fn new(head: Head, pairs: Vec<Pair>, transfers: Vec<Transfer>) -> Self
        requires file { IsProverFile (prover_of_parts head pairs.items transfers.items) }
        requires whole { AreWhole head.params pairs.items transfers.items }
        ensures { result ≡ prover_of_parts head pairs.items transfers.items }
    {
        ProverFile {
            head,
            pairs,
            transfers,
        }
    }

    /// The id that both files of a pair have.
    pub fn id(&self) -> [u8; 32]
        ensures id { result ≡ self.now.id }
        ensures file { IsProverFile self.now }
    {
        self.head.id
    }

    /// What the file was made for.
    pub fn params(&self) -> Params
        ensures params { result ≡ self.now.params }
        ensures file { IsProverFile self.now }
    {
        self.head.params
    }

    /// The seed of the code, 32 zero bytes in kind direct.
    pub fn code_seed(&self) -> [u8; 32]
        ensures seed { result ≡ self.now.code_seed }
        ensures file { IsProverFile self.now }
    {
        self.head.code_seed
    }

    /// This side's coins.
    pub fn coins(&self) -> CoinBox
        ensures { result ≡ self.now.coin_key }
    {
        CoinBox::new(&self.head.coin_key)
    }

    /// How many units the file has.
    pub fn total(&self) -> u64
        ensures total { result ≡ self.now.params.total }
        ensures file { IsProverFile self.now }
    {
        self.head.params.total
    }

    /// The pairs that are dealt in the units of a span, unit by unit.
    pub fn pairs(&self, span: Span) -> &[Pair]
        requires order { span.start ≤ span.end }
        requires within { span.end ≤ self.now.params.total }
        ensures pairs { result.now ≡ span_pairs self.now span }
        ensures count { length result.now ≡ dealt_per_unit self.now.params * (span.end - span.start) }
    {
        let start = first_dealt(&self.head.params, span.start);
        let end = first_dealt(&self.head.params, span.end);
        &self.pairs[start..end]
    }

    /// The prover's halves of a unit's transfers, tree by tree, and in a tree level by level from the top.
    pub fn transfers(&self, unit: u64) -> &[Transfer]
        requires { unit < self.now.params.total }
        ensures transfers { result.now ≡ unit_transfers (prover_unit self.now unit) }
        ensures count { length result.now ≡ self.now.params.trees * self.now.params.height }
    {
        let start = first_transfer(&self.head.params, unit);
        let end = first_transfer(&self.head.params, unit + 1);
        &self.transfers[start..end]
    }

    /// The file as bytes: a header of 128 bytes, a block for each unit, and the digest of all before it.
    pub fn encode(&self, alloc: Global) -> Result<Vec<u8>, AllocError>
        ensures { IfOk result (λ bytes. bytes.items ≡ prover_file_bytes self.now) }
    {
        let length = file_length(Side::Prover, &self.head.params) as usize;
        let mut bytes = Vec::with_capacity(alloc, length)?;
        push_header(&mut bytes, 0, &self.head)?;
        self.push_units(&mut bytes)?;
        push_digest(&mut bytes)?;
        Ok(bytes)
    }

    /// Appends a block for each unit.
    fn push_units(&self, bytes: &mut Vec<u8>) -> Result<(), AllocError>
        ensures { OnOk result (bytes.new.items
            ≡ bytes.old.items ++ flat_map prover_unit_bytes self.now.units) }
    {
        for unit in 0..self.head.params.total {
            let one = Span {
                start: unit,
                end: unit + 1,
            };
            push_pairs(bytes, self.pairs(one))?;
            push_transfers(bytes, self.transfers(unit))?;
        }
        Ok(())
    }
}
