// The verifier's rounds.
ghost use Rattle.std.specs.Prelude.{◌≡◌, ◌+◌, ◌*◌, ◌≤◌, [], length, All, IfOk};
ghost use Rattle.zk_model.specs.Correlations.{span_keys};
ghost use Rattle.zk_model.specs.Files.{AreParams, correlations_per_unit};
ghost use Rattle.zk_model.specs.Frames.{AreAsks};
ghost use Rattle.zk_model.specs.declared.Kind.TheVariants.{Extended};
ghost use Rattle.vole_extend.specs.Rounds.{unit_code};
ghost use Rattle.round_fan.specs.Fans.{lists_of, replies_from, keys_from};

use crate::room::{room_of, wave_of};
use crate::rounds::{Rounds, one_by_one, some_at_a_time};
use dealer_files::VerifierFile;
use linear_code::Columns;
use mersenne_field::Fe;
use std::alloc::{AllocError, Global};
use std::thread::Threads;
use tree_messages::{TreeAsk, TreeReply};
use vole_extend::VerifierRound;
use zk_model::{Params, Span};

/// What a verifier has of the rounds of neighbouring units: the replies for the trees of each unit, and all keys, unit by unit.
#[derive(Debug, Drop)]
pub struct FanReply {
    pub replies: Vec<Vec<TreeReply>>,
    pub keys: Vec<Fe>,
}

/// A verifier's rounds over units of an extended file.
#[derive(Clone, Copy)]
struct VerifierRounds<'a> {
    file: &'a VerifierFile,
    columns: &'a Columns,
}

impl<'a> Rounds<Vec<TreeAsk>, FanReply> for VerifierRounds<'a> {
    ghost use Rattle.zk_model.specs.Frames.{AreAsks};
    ghost use Rattle.round_fan.specs.Fans.{AreReplied, Fit};

    ghost Fits = { λ rounds unit came.
        Fit AreAsks rounds.file.now.params rounds.file.now.code_seed rounds.columns.now unit came.items };

    ghost Makes = { λ rounds start asks all.
        AreReplied rounds.file.now start asks all.replies.items all.keys.items };

    fn none(&self, alloc: Global) -> FanReply {
        FanReply {
            replies: Vec::new(alloc),
            keys: Vec::new(alloc),
        }
    }

    fn make(&self, alloc: Global, unit: u64, came: &Vec<TreeAsk>) -> Result<FanReply, AllocError> {
        let reply = VerifierRound::new(self.file, unit).reply(alloc, self.columns, came)?;
        let mut replies = Vec::with_capacity(alloc, 1)?;
        replies.push(reply.replies)?;
        Ok(FanReply {
            replies,
            keys: reply.keys,
        })
    }

    fn add(&self, all: &mut FanReply, more: FanReply) -> Result<(), AllocError> {
        let mut more = more;
        all.keys.extend_from_slice(&more.keys)?;
        all.replies.append(&mut more.replies)?;
        Ok(())
    }
}

/// No replies and keys yet, with room for those of so many units.
fn none_yet(alloc: Global, params: &Params, units: usize) -> Result<FanReply, AllocError>
    requires params { AreParams params.now }
    requires extended { params.now.kind ≡ Extended }
    ensures replies { IfOk result (λ r. r.replies.items ≡ []) }
    ensures keys { IfOk result (λ r. r.keys.items ≡ []) }
{
    let replies = Vec::with_capacity(alloc, units)?;
    let keys = Vec::with_capacity(alloc, room_of(params, units))?;
    Ok(FanReply { replies, keys })
}

/// The replies and keys of the units from this one on, to the asks for the trees of each, on one thread.
///
/// # Errors
///
/// Only where memory runs out.
pub fn unit_replies(
    alloc: Global,
    file: &VerifierFile,
    columns: &Columns,
    start: u64,
    asks: &[Vec<TreeAsk>],
) -> Result<FanReply, AllocError>
    requires extended { file.now.params.kind ≡ Extended }
    requires within { start + length asks.now ≤ file.now.params.total }
    requires columns { columns.now ≡ unit_code file.now.params file.now.code_seed }
    requires fits { All (AreAsks file.now.params.height file.now.params.trees) (lists_of asks.now) }
    ensures replies { IfOk result (λ r. lists_of r.replies.items
        ≡ replies_from file.now start (lists_of asks.now)) }
    ensures keys { IfOk result (λ r. r.keys.items ≡ keys_from file.now start (length asks.now)) }
    ensures reply_count { IfOk result (λ r. length r.replies.items ≡ length asks.now) }
    ensures key_count { IfOk result (λ r. length r.keys.items
        ≡ length asks.now * correlations_per_unit file.now.params) }
{
    let _total = file.total();
    let mut all = none_yet(alloc, &file.params(), asks.len())?;
    let rounds = VerifierRounds { file, columns };
    one_by_one(alloc, &rounds, start, asks, &mut all)?;
    Ok(all)
}

/// The replies and keys of all units of a span, to the asks for the trees of each, by so many workers. The keys are the same
/// whatever was asked.
///
/// # Errors
///
/// Only where memory runs out.
pub fn fan_verifier<R: Threads + Sync>(
    rt: &R,
    alloc: Global,
    file: &VerifierFile,
    columns: &Columns,
    span: Span,
    asks: &[Vec<TreeAsk>],
    workers: u32,
) -> Result<FanReply, AllocError>
    requires some { 1 ≤ workers }
    requires few { workers ≤ 1024 }
    requires extended { file.now.params.kind ≡ Extended }
    requires units { span.end ≡ span.start + length asks.now }
    requires within { span.end ≤ file.now.params.total }
    requires columns { columns.now ≡ unit_code file.now.params file.now.code_seed }
    requires fits { All (AreAsks file.now.params.height file.now.params.trees) (lists_of asks.now) }
    ensures replies { IfOk result (λ r. lists_of r.replies.items
        ≡ replies_from file.now span.start (lists_of asks.now)) }
    ensures keys { IfOk result (λ r. r.keys.items ≡ span_keys file.now span) }
    ensures reply_count { IfOk result (λ r. length r.replies.items ≡ length asks.now) }
    ensures key_count { IfOk result (λ r. length r.keys.items
        ≡ length asks.now * correlations_per_unit file.now.params) }
{
    let _total = file.total();
    let mut all = none_yet(alloc, &file.params(), asks.len())?;
    let rounds = VerifierRounds { file, columns };
    let wave = wave_of(&file.params(), asks.len(), workers);
    some_at_a_time(rt, alloc, &rounds, span.start, asks, wave, &mut all)?;
    Ok(all)
}
