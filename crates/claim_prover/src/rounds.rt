// A prover's rounds, and its pairs.
ghost use Rattle.std.specs.Prelude.{◌≡◌, ◌+◌, ◌*◌, ◌≤◌, ◌++◌, ◌∷◌, ℕ, List, [], length, map, All, IfOk, OnOk};
ghost use Rattle.std.specs.Thread.{IsSync};
ghost use Rattle.zk_model.specs.Files.{correlations_per_unit};
ghost use Rattle.zk_model.specs.Frames as model;
ghost use Rattle.zk_model.specs.Frames.{AreReplies};
ghost use Rattle.zk_model.specs.Transcript as transcript;
ghost use Rattle.zk_model.specs.declared.Kind.TheVariants.{Extended};
ghost use Rattle.proof_frames.specs.Frames.{frame_value};
ghost use Rattle.round_fan.specs.Fans.{lists_of};
ghost use Rattle.wire_auth.specs.Held.{items_in};
ghost use Rattle.claim_prover.specs.Telling.{ArePairsOf, asks_in};

use dealer_files::ProverFile;
use mersenne_field::Pair;
use proof_frames::{Frame, Grant};
use round_fan::{SESSION_WORKERS, fan_prover};
use session_core::{Correlations, ask_lists, units_of};
use std::alloc::{AllocError, Global};
use std::collections::VecDeque;
use std::thread::Threads;
use tree_messages::{TreeAsk, TreeReply};
use vole_extend::columns_of;
use zk_model::Kind;

/// What it asks for the units of a grant: nothing in kind direct.
pub(crate) fn asks_for(
    alloc: Global,
    file: &ProverFile,
    grant: Grant,
) -> Result<VecDeque<Vec<TreeAsk>>, AllocError>
    requires within { grant.start + grant.count ≤ file.now.params.total }
    ensures { IfOk result (λ asks. lists_of asks.items ≡ asks_in file.now file.now.params.kind grant) }
{
    match file.params().kind {
        Kind::Direct => Ok(VecDeque::new(alloc)),
        Kind::Extended => Ok(VecDeque::from(ask_lists(alloc, file, grant)?)),
    }
}

/// The next asks, which are taken out.
pub(crate) fn next_asks(asks: &mut VecDeque<Vec<TreeAsk>>) -> Vec<TreeAsk>
    requires { (said : List transcript.TreeAsk) × (due : List (List transcript.TreeAsk)) × (lists_of asks.old.items ≡ said ∷ due) }
    ensures { lists_of asks.old.items ≡ result.items ∷ lists_of asks.new.items }
{
    match asks.pop_front() {
        Some(trees) => trees,
        None => unreachable!(),
    }
}

/// Notes replies more.
pub(crate) fn keep_replies(
    came: &mut Vec<Vec<TreeReply>>,
    trees: Vec<TreeReply>,
) -> Result<(), AllocError>
    ensures { OnOk result (lists_of came.new.items ≡ lists_of came.old.items ++ trees.items ∷ []) }
{
    came.push(trees)?;
    Ok(())
}

/// The pairs of a grant's units: those that they were dealt, or those that the replies for all of them make.
pub(crate) fn pairs_of<'f, R: Threads + Sync>(
    rt: &R,
    alloc: Global,
    file: &'f ProverFile,
    grant: Grant,
    came: &[Vec<TreeReply>],
) -> Result<Correlations<'f, Pair>, AllocError>
    requires shared { IsSync R.row }
    requires within { grant.start + grant.count ≤ file.now.params.total }
    requires whole { file.now.params.kind ≡ Extended → length came.now ≡ grant.count }
    requires each { All (AreReplies file.now.params.height file.now.params.trees) (lists_of came.now) }
    ensures made { IfOk result (λ pairs. ArePairsOf file.now file.now.params.kind grant (lists_of came.now) (items_in pairs)) }
    ensures count { IfOk result (λ pairs. length (items_in pairs) ≡ grant.count * correlations_per_unit file.now.params) }
{
    let _total = file.total();
    let span = units_of(grant);
    match file.params().kind {
        Kind::Direct => Ok(Correlations::Dealt(file.pairs(span))),
        Kind::Extended => {
            let columns = columns_of(alloc, &file.params(), &file.code_seed())?;
            let pairs = fan_prover(rt, alloc, file, &columns, span, came, SESSION_WORKERS)?;
            Ok(Correlations::Made(pairs))
        }
    }
}

/// The next answer, which is taken out.
pub(crate) fn next_answer(answers: &mut VecDeque<Frame>) -> Frame
    requires { (said : model.Frame) × (due : List model.Frame) × (map frame_value answers.old.items ≡ said ∷ due) }
    ensures { map frame_value answers.old.items ≡ frame_value result ∷ map frame_value answers.new.items }
{
    match answers.pop_front() {
        Some(frame) => frame,
        None => unreachable!(),
    }
}
