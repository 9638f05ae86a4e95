// The prover's rounds.
ghost use Rattle.std.specs.Prelude.{◌≡◌, ◌+◌, ◌*◌, ◌≤◌, length, All, IfOk};
ghost use Rattle.zk_model.specs.Files.{correlations_per_unit};
ghost use Rattle.zk_model.specs.Frames.{AreReplies};
ghost use Rattle.zk_model.specs.declared.Kind.TheVariants.{Extended};
ghost use Rattle.vole_extend.specs.Rounds.{unit_code};
ghost use Rattle.round_fan.specs.Fans.{lists_of, ArePairsFrom};

use crate::room::{room_of, wave_of};
use crate::rounds::{Rounds, one_by_one, some_at_a_time};
use dealer_files::ProverFile;
use linear_code::Columns;
use mersenne_field::Pair;
use std::alloc::{AllocError, Global};
use std::thread::Threads;
use tree_messages::TreeReply;
use vole_extend::ProverRound;
use zk_model::Span;

/// A prover's rounds over units of an extended file.
#[derive(Clone, Copy)]
struct ProverRounds<'a> {
    file: &'a ProverFile,
    columns: &'a Columns,
}

impl<'a> Rounds<Vec<TreeReply>, Vec<Pair>> for ProverRounds<'a> {
    ghost use Rattle.zk_model.specs.Frames.{AreReplies};
    ghost use Rattle.round_fan.specs.Fans.{ArePairs, Fit};

    ghost Fits = { λ rounds unit came.
        Fit AreReplies rounds.file.now.params rounds.file.now.code_seed rounds.columns.now unit came.items };

    ghost Makes = { λ rounds start replies pairs. ArePairs rounds.file.now start replies pairs.items };

    fn none(&self, alloc: Global) -> Vec<Pair> {
        Vec::new(alloc)
    }

    fn make(
        &self,
        alloc: Global,
        unit: u64,
        came: &Vec<TreeReply>,
    ) -> Result<Vec<Pair>, AllocError> {
        let round = ProverRound::new(self.file, unit);
        let pairs = round.finish(alloc, self.columns, came)?;
        Ok(pairs)
    }

    fn add(&self, all: &mut Vec<Pair>, more: Vec<Pair>) -> Result<(), AllocError> {
        all.extend_from_slice(&more)?;
        Ok(())
    }
}

/// The pairs of the units from this one on, from the replies for the trees of each, on one thread.
///
/// # Errors
///
/// Only where memory runs out.
pub fn unit_pairs(
    alloc: Global,
    file: &ProverFile,
    columns: &Columns,
    start: u64,
    replies: &[Vec<TreeReply>],
) -> Result<Vec<Pair>, AllocError>
    requires extended { file.now.params.kind ≡ Extended }
    requires within { start + length replies.now ≤ file.now.params.total }
    requires columns { columns.now ≡ unit_code file.now.params file.now.code_seed }
    requires fits { All (AreReplies file.now.params.height file.now.params.trees) (lists_of replies.now) }
    ensures pairs { IfOk result (λ pairs. ArePairsFrom file.now start (lists_of replies.now) pairs.items) }
    ensures count { IfOk result (λ pairs. length pairs.items
        ≡ length replies.now * correlations_per_unit file.now.params) }
{
    let _total = file.total();
    let mut pairs = Vec::with_capacity(alloc, room_of(&file.params(), replies.len()))?;
    let rounds = ProverRounds { file, columns };
    one_by_one(alloc, &rounds, start, replies, &mut pairs)?;
    Ok(pairs)
}

/// The pairs of all units of a span, from the replies for the trees of each, by so many workers.
///
/// # Errors
///
/// Only where memory runs out.
pub fn fan_prover<R: Threads + Sync>(
    rt: &R,
    alloc: Global,
    file: &ProverFile,
    columns: &Columns,
    span: Span,
    replies: &[Vec<TreeReply>],
    workers: u32,
) -> Result<Vec<Pair>, AllocError>
    requires some { 1 ≤ workers }
    requires few { workers ≤ 1024 }
    requires extended { file.now.params.kind ≡ Extended }
    requires units { span.end ≡ span.start + length replies.now }
    requires within { span.end ≤ file.now.params.total }
    requires columns { columns.now ≡ unit_code file.now.params file.now.code_seed }
    requires fits { All (AreReplies file.now.params.height file.now.params.trees) (lists_of replies.now) }
    ensures pairs { IfOk result (λ pairs.
        ArePairsFrom file.now span.start (lists_of replies.now) pairs.items) }
    ensures count { IfOk result (λ pairs. length pairs.items
        ≡ length replies.now * correlations_per_unit file.now.params) }
{
    let _total = file.total();
    let mut pairs = Vec::with_capacity(alloc, room_of(&file.params(), replies.len()))?;
    let rounds = ProverRounds { file, columns };
    let wave = wave_of(&file.params(), replies.len(), workers);
    some_at_a_time(rt, alloc, &rounds, span.start, replies, wave, &mut pairs)?;
    Ok(pairs)
}
