// What passes between both ends of a session: each turn is answered by the other end.
ghost use Rattle.std.specs.Prelude.{◌≡◌, ◌+◌, ◌*◌, ◌≤◌, ℕ, [], List, length, map, IfOk, IfSome, Ok};
ghost use Rattle.zk_model.specs.Correlations.{span_keys};
ghost use Rattle.zk_model.specs.Files.{AreDealt, correlations_per_unit};
ghost use Rattle.zk_model.specs.Frames as model;
ghost use Rattle.zk_model.specs.HonestProver.{round_asks};
ghost use Rattle.zk_model.specs.ServedVerifier.{round_replies};
ghost use Rattle.zk_model.specs.Transcript.{Round, IsGrant};
ghost use Rattle.zk_model.specs.View.{span_of};
ghost use Rattle.zk_model.specs.declared.Kind.TheVariants.{Extended};
ghost use Rattle.zk_model.specs.declared.Side.{Side};
ghost use Rattle.proof_frames.specs.Frames.{frame_value};
ghost use Rattle.wire_auth.specs.Held.{items_in};
ghost use Rattle.wire_auth.specs.Values.{given_made};
ghost use Rattle.session_core.specs.Ends.{whole_grant};
ghost use Rattle.session_core.specs.Jobs as jobs;
ghost use Rattle.session_core.specs.Jobs.{AreWitnessValues, units_of_job, granted_from, prover_from};
ghost use Rattle.session_core.specs.Fixing.{HoldsKeys, IsFixedUnder};
ghost use Rattle.session_core.specs.Judgements.{AreLeftSides};
ghost use Rattle.session_rehearsal.specs.Exchanges.{IsExchangeNoted, IsShortExchange, AreShort, round_log};
ghost use Rattle.session_rehearsal.specs.Answers.{IsAnswered, IsCounted, IsOpened};
ghost use Rattle.session_rehearsal.specs.Holding.{AreRoundsHeld, HoldsRounds, IsRehearsedSession, ends_of, ends_with};

use dealer_files::{ProverFile, VerifierFile};
use mersenne_field::{Fe, Pair};
use proof_frames::{Frame, Grant, Hello};
use round_fan::{SESSION_WORKERS, fan_prover, fan_verifier};
use session_core::{
    Correlations, LeftSides, OneThread, Opened, ProverJob, Statement, VerifierJob, WireValues,
    ask_frames, ask_lists, reply_frames, units_of,
};
use session_laws::{asks_are_in_range, replies_are_in_range};
use std::alloc::{AllocError, Global};
use std::thread::{self, Threads};
use vole_extend::columns_of;
use zk_model::{Kind, Verdict};

/// All that both ends of a session say, in order.
#[derive(Drop)]
pub(crate) struct SessionValues {
    pub(crate) hello: Hello,
    pub(crate) grant: Grant,
    /// The frames of the rounds after the grant, none in kind direct.
    pub(crate) asked: Vec<Frame>,
    pub(crate) replied: Vec<Frame>,
    pub(crate) corrections: Vec<Fe>,
    pub(crate) challenge: Fe,
    pub(crate) opened: Opened,
    pub(crate) verdict: Verdict,
}

/// What the rounds after a grant leave both ends with, and the frames of these rounds.
#[derive(Drop)]
pub struct Correlated<'p, 'v> {
    pub asked: Vec<Frame>,
    pub replied: Vec<Frame>,
    pub pairs: Correlations<'p, Pair>,
    pub keys: Correlations<'v, Fe>,
}

/// What both ends have said once the prover has answered the challenge, and what the verifier has by then.
#[derive(Drop)]
pub(crate) struct OpenedSession {
    pub(crate) hello: Hello,
    pub(crate) grant: Grant,
    pub(crate) asked: Vec<Frame>,
    pub(crate) replied: Vec<Frame>,
    pub(crate) left_sides: LeftSides,
    pub(crate) corrections: Vec<Fe>,
    pub(crate) challenge: Fe,
    pub(crate) opened: Opened,
}

/// A session of both ends over all units of their files. The prover's file is given up once it has answered the challenge, and what makes its
/// given values, at these inputs, once it has answered the grant.
pub(crate) fn run_session<R: Threads + Sync>(
    rt: &R,
    alloc: Global,
    statement: &Statement<'_>,
    inputs: &[Fe],
    wires: WireValues,
    prover_file: ProverFile,
    verifier_file: &VerifierFile,
    section: u32,
) -> Result<SessionValues, AllocError>
    requires inputs { length inputs.now ≡ statement.now.program.inputs }
    requires wires { AreWitnessValues
        (given_made statement.now.program statement.now.public inputs.now) statement.now.program wires }
    requires dealt { AreDealt prover_file verifier_file.now }
    requires granted { IsGrant prover_file.params statement.now.program
        (whole_grant prover_file.params.total section) }
    ensures session { IfOk result (λ e. (log : List (Side × ℕ)) → IsExchangeNoted e log
        → IsRehearsedSession (ends_with statement.now inputs.now prover_file verifier_file.now)
        (whole_grant prover_file.params.total section) e.verdict log) }
    ensures short { IfOk result IsShortExchange }
{
    let verifier = VerifierJob::new(statement, verifier_file, section);
    let answered = answer(rt, alloc, statement, inputs, wires, &prover_file, &verifier)?;
    drop(prover_file);
    let exchange = judge(&verifier, answered);
    Ok(exchange)
}

/// All turns up to the prover's answer to the challenge, which are those that both cores take.
fn answer<R: Threads + Sync>(
    rt: &R,
    alloc: Global,
    statement: &Statement<'_>,
    inputs: &[Fe],
    wires: WireValues,
    prover_file: &ProverFile,
    verifier: &VerifierJob<'_>,
) -> Result<OpenedSession, AllocError>
    requires inputs { length inputs.now ≡ statement.now.program.inputs }
    requires wires { AreWitnessValues
        (given_made statement.now.program statement.now.public inputs.now) statement.now.program wires }
    requires stated { statement.now ≡ verifier.now.task.statement }
    requires dealt { AreDealt prover_file.now verifier.now.task.file }
    requires within { units_of_job verifier.now ≤ verifier.now.task.file.params.total }
    ensures answered { IfOk result
        (IsAnswered (prover_from statement.now inputs.now prover_file.now) verifier.now) }
    ensures counted { IfOk result (IsCounted verifier.now) }
{
    let prover = ProverJob::new(statement, prover_file, inputs);
    let grant = verifier.grant(0);
    let established = establish(rt, alloc, &prover, verifier, grant)?;
    let answered = open(rt, alloc, &prover, verifier, grant, established, wires)?;
    Ok(answered)
}

/// The rounds after the grant: none in kind direct, and one in kind extended.
fn establish<'p, 'v, R: Threads + Sync>(
    rt: &R,
    alloc: Global,
    prover: &ProverJob<'p>,
    verifier: &VerifierJob<'v>,
    grant: Grant,
) -> Result<Correlated<'p, 'v>, AllocError>
    requires stated { prover.now.statement ≡ verifier.now.task.statement }
    requires params { prover.now.file.params ≡ verifier.now.task.file.params }
    requires code { prover.now.file.code_seed ≡ verifier.now.task.file.code_seed }
    requires grant { grant ≡ granted_from verifier.now 0 }
    requires within { units_of_job verifier.now ≤ verifier.now.task.file.params.total }
    ensures held { IfOk result (λ e. HoldsRounds prover.now.file verifier.now.task.file grant
        (items_in e.pairs) [] (round_log e.asked.items e.replied.items)) }
    ensures short { IfOk result (λ e. AreShort e.asked.items e.replied.items) }
    ensures pairs { IfOk result (λ e. length (items_in e.pairs)
        ≡ grant.count * correlations_per_unit prover.now.file.params) }
    ensures keys { IfOk result (λ e. HoldsKeys verifier.now 0 (items_in e.keys)) }
{
    match verifier.file().params().kind {
        Kind::Direct => Ok(Correlated {
            asked: Vec::new(alloc),
            replied: Vec::new(alloc),
            pairs: Correlations::Dealt(prover.dealt_pairs(grant)),
            keys: Correlations::Dealt(verifier.dealt_keys(0)),
        }),
        Kind::Extended => {
            let established = extend(rt, alloc, prover.file(), verifier.file(), grant)?;
            Ok(established)
        }
    }
}

/// The round of all units of a grant: all asks, and all replies. Both files have one code, whose columns are made once. Several threads do
/// the rounds.
///
/// # Errors
///
/// Only where memory runs out.
pub fn extend<'p, 'v, R: Threads + Sync>(
    rt: &R,
    alloc: Global,
    prover: &'p ProverFile,
    verifier: &'v VerifierFile,
    grant: Grant,
) -> Result<Correlated<'p, 'v>, AllocError>
    requires params { prover.now.params ≡ verifier.now.params }
    requires code { prover.now.code_seed ≡ verifier.now.code_seed }
    requires extended { verifier.now.params.kind ≡ Extended }
    requires within { grant.start + grant.count ≤ verifier.now.params.total }
    ensures held { IfOk result (λ e. HoldsRounds prover.now verifier.now grant
        (items_in e.pairs) [] (round_log e.asked.items e.replied.items)) }
    ensures asked { IfOk result (λ e. map frame_value e.asked.items ≡ map model.asks (round_asks prover.now grant)) }
    ensures replied { IfOk result (λ e. map frame_value e.replied.items
        ≡ map model.replies (round_replies verifier.now grant (round_asks prover.now grant))) }
    ensures short { IfOk result (λ e. AreShort e.asked.items e.replied.items) }
    ensures pairs { IfOk result (λ e. length (items_in e.pairs)
        ≡ grant.count * correlations_per_unit prover.now.params) }
    ensures keys { IfOk result (λ e. items_in e.keys ≡ span_keys verifier.now (span_of grant)) }
    ensures key_count { IfOk result (λ e. length (items_in e.keys)
        ≡ grant.count * correlations_per_unit verifier.now.params) }
{
    asks_are_in_range();
    replies_are_in_range();
    let _verifier = verifier.params();
    let _prover = prover.params();
    let span = units_of(grant);
    let asks = ask_lists(alloc, prover, grant)?;
    let columns = columns_of(alloc, &verifier.params(), &verifier.code_seed())?;
    let given = fan_verifier(rt, alloc, verifier, &columns, span, &asks, SESSION_WORKERS)?;
    let pairs = fan_prover(
        rt,
        alloc,
        prover,
        &columns,
        span,
        &given.replies,
        SESSION_WORKERS,
    )?;
    let asked = ask_frames(alloc, asks)?;
    let replied = reply_frames(alloc, given.replies)?;
    Ok(Correlated {
        asked,
        replied,
        pairs: Correlations::Made(pairs),
        keys: Correlations::Made(given.keys),
    })
}

/// The turns after the rounds, up to the prover's answer to the challenge. While the prover walks for its answer, the verifier walks for the
/// left sides of its checks, which does not wait for the answer.
fn open<'p, 'v, R: Threads + Sync>(
    rt: &R,
    alloc: Global,
    prover: &ProverJob<'p>,
    verifier: &VerifierJob<'v>,
    grant: Grant,
    established: Correlated<'p, 'v>,
    wires: WireValues,
) -> Result<OpenedSession, AllocError>
    requires stated { prover.now.statement ≡ verifier.now.task.statement }
    requires dealt { AreDealt prover.now.file verifier.now.task.file }
    requires grant { grant ≡ granted_from verifier.now 0 }
    requires held { HoldsRounds prover.now.file verifier.now.task.file grant
        (items_in established.pairs) [] (round_log established.asked.items established.replied.items) }
    requires short { AreShort established.asked.items established.replied.items }
    requires pairs { length (items_in established.pairs)
        ≡ grant.count * correlations_per_unit prover.now.file.params }
    requires keys { HoldsKeys verifier.now 0 (items_in established.keys) }
    requires within { units_of_job verifier.now ≤ verifier.now.task.file.params.total }
    requires wires { AreWitnessValues prover.now.given prover.now.statement.program wires }
    ensures answered { IfOk result (IsAnswered prover.now verifier.now) }
    ensures counted { IfOk result (IsCounted verifier.now) }
{
    let _total = verifier.file().total();
    let hello = prover.greet();
    let Correlated {
        asked,
        replied,
        pairs,
        keys,
    } = established;
    let seen = pairs.as_slice();
    let corrections = prover.commit_with(alloc, grant, seen, wires)?;
    let challenge = verifier.challenge(0);
    let held = keys.as_slice();
    let walked = both_walks(
        rt,
        alloc,
        prover,
        verifier,
        grant,
        seen,
        held,
        &corrections,
        challenge,
    )?;
    let Walked { left_sides, opened } = walked;
    Ok(OpenedSession {
        hello,
        grant,
        asked,
        replied,
        left_sides,
        corrections,
        challenge,
        opened,
    })
}

/// What both walks give.
#[derive(Drop)]
struct Walked {
    left_sides: LeftSides,
    opened: Opened,
}

/// Both, where both are there.
fn both(
    left_sides: Result<LeftSides, AllocError>,
    opened: Result<Opened, AllocError>,
) -> Result<Walked, AllocError>
    ensures left_sides { IfOk result (λ w. left_sides ≡ Ok w.left_sides) }
    ensures opened { IfOk result (λ w. opened ≡ Ok w.opened) }
{
    let left_sides = left_sides?;
    let opened = opened?;
    Ok(Walked { left_sides, opened })
}

/// What the verifier has before the prover answers the challenge, and that answer, by two walks at the same time.
fn both_walks<'p, 'v, R: Threads + Sync>(
    rt: &R,
    alloc: Global,
    prover: &ProverJob<'p>,
    verifier: &VerifierJob<'v>,
    grant: Grant,
    pairs: &[Pair],
    keys: &[Fe],
    corrections: &[Fe],
    challenge: Fe,
) -> Result<Walked, AllocError>
    requires held { IsFixedUnder prover.now grant pairs.now }
    requires within { units_of_job verifier.now ≤ verifier.now.task.file.params.total }
    requires keys { HoldsKeys verifier.now 0 keys.now }
    requires corrections { length corrections.now ≡ verifier.now.task.statement.program.givens }
    ensures left_sides { IfOk result (λ w. AreLeftSides verifier.now 0 corrections.now w.left_sides) }
    ensures opened { IfOk result (λ w. IsOpened prover.now grant pairs.now challenge w.opened) }
{
    let prepared = || -> Result<LeftSides, AllocError>
        requires { (units_of_job verifier.now ≤ verifier.now.task.file.params.total)
            × HoldsKeys verifier.now 0 keys.now
            × (length corrections.now ≡ verifier.now.task.statement.program.givens) }
        ensures { IfOk result (AreLeftSides verifier.entry.now 0 corrections.entry.now) }
    { verifier.left_sides(alloc, 0, keys, corrections) };
    let answered = || -> Result<Opened, AllocError>
        requires { IsFixedUnder prover.now grant pairs.now }
        ensures { IfOk result (IsOpened prover.entry.now grant pairs.entry.now challenge) }
    { prover.open(&OneThread, alloc, grant, pairs, challenge) };
    let (left_sides, opened) = thread::join(rt, prepared, answered);
    both(left_sides, opened)
}

/// The verifier's last turn.
fn judge(verifier: &VerifierJob<'_>, answered: OpenedSession) -> SessionValues
    requires within { units_of_job verifier.now ≤ verifier.now.task.file.params.total }
    requires counted { IsCounted verifier.now answered }
    ensures session { (prover : jobs.ProverJob) (log : List (Side × ℕ))
        → prover.statement ≡ verifier.now.task.statement → AreDealt prover.file verifier.now.task.file
        → IsAnswered prover verifier.now answered → IsExchangeNoted result log
        → IsRehearsedSession (ends_of prover verifier.now) (granted_from verifier.now 0) result.verdict log }
    ensures short { IsShortExchange result }
{
    let program = verifier.statement().program();
    let _products = program.products();
    let _total = verifier.file().total();
    let OpenedSession {
        hello,
        grant,
        asked,
        replied,
        left_sides,
        corrections,
        challenge,
        opened,
    } = answered;
    let judgement = verifier.judge_left_sides(
        0,
        &corrections,
        &left_sides,
        &opened.sums,
        &opened.openings,
    );
    SessionValues {
        hello,
        grant,
        asked,
        replied,
        corrections,
        challenge,
        opened,
        verdict: judgement.verdict(),
    }
}
