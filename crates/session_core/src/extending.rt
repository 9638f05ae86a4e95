// The rounds of all units of a grant, at either end.
ghost use Rattle.std.specs.Prelude.{◌≡◌, ◌+◌, ◌*◌, ◌<◌, ◌≤◌, length, map, All, IfOk};
ghost use Rattle.zk_model.specs.Correlations.{unit_keys, span_keys};
ghost use Rattle.zk_model.specs.Replies.{unit_reply};
ghost use Rattle.zk_model.specs.Files.{AreParams, correlations_per_unit};
ghost use Rattle.zk_model.specs.Frames.{AreAsks};
ghost use Rattle.zk_model.specs.Frames as model;
ghost use Rattle.zk_model.specs.HonestProver.{round_asks};
ghost use Rattle.zk_model.specs.ServedVerifier.{round_replies};
ghost use Rattle.zk_model.specs.View.{span_of};
ghost use Rattle.zk_model.specs.declared.Kind.TheVariants.{Extended};
ghost use Rattle.proof_frames.specs.Frames.{frame_value};
ghost use Rattle.vole_extend.specs.Rounds.{unit_code};
ghost use Rattle.round_fan.specs.Fans.{lists_of};
ghost use Rattle.session_core.specs.Extending.{asks_in, replies_in, asks_of};

use crate::round_frames::ask_frames;
use crate::verifier_job::correlations_per_unit;
use dealer_files::{ProverFile, VerifierFile};
use linear_code::Columns;
use mersenne_field::Fe;
use proof_frames::{Frame, Grant};
use std::alloc::{AllocError, Global};
use tree_messages::{TreeAsk, TreeReply};
use vole_extend::{ProverRound, UnitReply, VerifierRound};
use zk_model::Params;

/// What a verifier makes of the asks for all units of its grant: a frame of replies for each, and its keys.
#[derive(Debug, Drop)]
pub struct Replied {
    pub replies: Vec<Frame>,
    pub keys: Vec<Fe>,
}

/// The asks of a frame, none where it has none.
pub fn asks_in(frame: &Frame) -> &[TreeAsk]
    ensures { result.now ≡ asks_in (frame_value frame.now) }
{
    match frame {
        Frame::ExtendAsk(trees) => trees,
        _ => &[],
    }
}

/// The replies of a frame, none where it has none.
pub fn replies_in(frame: &Frame) -> &[TreeReply]
    ensures { result.now ≡ replies_in (frame_value frame.now) }
{
    match frame {
        Frame::ExtendReply(trees) => trees,
        _ => &[],
    }
}

/// What a prover asks for the trees of all units of a grant, unit by unit.
pub fn ask_lists(
    alloc: Global,
    file: &ProverFile,
    grant: Grant,
) -> Result<Vec<Vec<TreeAsk>>, AllocError>
    requires extended { file.now.params.kind ≡ Extended }
    requires within { grant.start + grant.count ≤ file.now.params.total }
    ensures { IfOk result (λ asks. lists_of asks.items ≡ round_asks file.now grant) }
{
    let _total = file.total();
    let mut asks = Vec::with_capacity(alloc, grant.count as usize)?;
    for unit in grant.start..grant.start + u64::from(grant.count) {
        let trees = ProverRound::new(file, unit).ask(alloc)?;
        asks.push(trees)?;
    }
    Ok(asks)
}

/// What a prover asks for the trees of all units of a grant: a frame for each unit.
pub fn ask_units(alloc: Global, file: &ProverFile, grant: Grant) -> Result<Vec<Frame>, AllocError>
    requires extended { file.now.params.kind ≡ Extended }
    requires within { grant.start + grant.count ≤ file.now.params.total }
    ensures { IfOk result (λ frames. map frame_value frames.items
        ≡ map model.asks (round_asks file.now grant)) }
{
    let asks = ask_lists(alloc, file, grant)?;
    ask_frames(alloc, asks)
}

/// How many correlations so many units give: the room to take for them at once.
fn room_of(params: &Params, units: usize) -> usize
    requires { AreParams params.now }
{
    units.saturating_mul(correlations_per_unit(params) as usize)
}

/// What a verifier replies to the asks for the trees of a unit, and its keys.
fn reply_unit(
    alloc: Global,
    file: &VerifierFile,
    columns: &Columns,
    unit: u64,
    asks: &[TreeAsk],
) -> Result<UnitReply, AllocError>
    requires extended { file.now.params.kind ≡ Extended }
    requires within { unit < file.now.params.total }
    requires columns { columns.now ≡ unit_code file.now.params file.now.code_seed }
    requires asks { AreAsks file.now.params.height file.now.params.trees asks.now }
    ensures replies { IfOk result (λ r. r.replies.items ≡ unit_reply file.now unit asks.now) }
    ensures keys { IfOk result (λ r. r.keys.items ≡ unit_keys file.now unit) }
    ensures count { IfOk result (λ r. length r.keys.items ≡ correlations_per_unit file.now.params) }
{
    let reply = VerifierRound::new(file, unit).reply(alloc, columns, asks)?;
    Ok(reply)
}

/// What a verifier replies to the asks for all units of a grant, a frame for each unit; and the keys of these units.
pub fn reply_units(
    alloc: Global,
    file: &VerifierFile,
    columns: &Columns,
    grant: Grant,
    asked: &[Frame],
) -> Result<Replied, AllocError>
    requires extended { file.now.params.kind ≡ Extended }
    requires within { grant.start + grant.count ≤ file.now.params.total }
    requires columns { columns.now ≡ unit_code file.now.params file.now.code_seed }
    requires count { length asked.now ≡ grant.count }
    requires asks { All (AreAsks file.now.params.height file.now.params.trees) (asks_of asked.now) }
    ensures replies { IfOk result (λ r. map frame_value r.replies.items
        ≡ map model.replies (round_replies file.now grant (asks_of asked.now))) }
    ensures keys { IfOk result (λ r. r.keys.items ≡ span_keys file.now (span_of grant)) }
    ensures count { IfOk result (λ r. length r.keys.items
        ≡ grant.count * correlations_per_unit file.now.params) }
{
    let _total = file.total();
    let mut replies = Vec::with_capacity(alloc, asked.len())?;
    let mut keys = Vec::with_capacity(alloc, room_of(&file.params(), asked.len()))?;
    for (i, frame) in asked.iter().enumerate() {
        let unit = grant.start + i as u64;
        let reply = reply_unit(alloc, file, columns, unit, asks_in(frame))?;
        keys.extend_from_slice(&reply.keys)?;
        replies.push(Frame::ExtendReply(reply.replies))?;
    }
    Ok(Replied { replies, keys })
}
