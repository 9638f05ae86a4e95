// A prover's voice, over any claim.
ghost use Rattle.std.specs.Prelude.{◌≡◌, ◌+◌, ◌≤◌, ◌∷◌, [], None, Some, length, map, All, IsSome, IfOk};
ghost use Rattle.std.specs.Thread.{IsSync};
ghost use Rattle.zk_model.specs.Frames as model;
ghost use Rattle.proof_frames.specs.Frames.{frame_value, IsShort};
ghost use Rattle.wire_auth.specs.Held.{items_in};
ghost use Rattle.round_fan.specs.Fans.{lists_of};
ghost use Rattle.zk_model.specs.Frames.{AreElements, AreReplies};
ghost use Rattle.zk_model.specs.HonestProver.{honest_corrections};
ghost use Rattle.zk_model.specs.declared.Kind.TheVariants.{Extended};
ghost use Rattle.session_claim.specs.Claims.{claim_needs};
ghost use Rattle.claim_prover.specs.Telling.{ArePairsOf, SuitsClaim};

use crate::fault::ProvingFault;
use crate::granting::{challenge_in, grant_in, replies_in, take_grant, verdict_in};
use crate::rounds::{keep_replies, next_answer, next_asks, pairs_of};
use crate::witness::Witness;
use dealer_files::ProverFile;
use mersenne_field::{Fe, Pair};
use proof_frames::{Frame, Grant};
use session_claim::claim_behind;
use session_core::Correlations;
use session_laws::asks_are_in_range;
use session_prover::Claimant;
use session_script::Voice;
use std::alloc::{AllocError, Global};
use std::collections::VecDeque;
use std::thread::Threads;
use tree_messages::{TreeAsk, TreeReply};
use zk_model::{Expect, Side};

/// A prover: what it knows for its claim, its file, and what it has said and heard so far.
#[derive(Drop)]
pub struct Proving<'a, W> {
    pub witness: &'a W,
    pub file: &'a ProverFile,
    pub given: Option<Grant>,
    pub asks: VecDeque<Vec<TreeAsk>>,
    pub replies: Vec<Vec<TreeReply>>,
    pub pairs: Correlations<'a, Pair>,
    pub challenge: Option<Fe>,
    pub answers: VecDeque<Frame>,
    pub verdict: Option<(u8, u32)>,
}

/// The grant that is known.
fn the_grant(given: &Option<Grant>) -> Grant
    requires { IsSome given.now }
    ensures { given.now ≡ Some result }
{
    match given {
        Some(grant) => *grant,
        None => unreachable!(),
    }
}

/// Its hello, alone.
fn hello_alone<W: Witness>(
    alloc: Global,
    witness: &W,
    file: &ProverFile,
) -> Result<Vec<Frame>, AllocError>
    ensures frames { IfOk result (λ frames. map frame_value frames.items ≡ model.hello (W.said witness.now file.now.id) ∷ []) }
    ensures short { IfOk result (λ frames. All IsShort (map frame_value frames.items)) }
{
    let hello = witness.hello(file.id());
    let mut frames = Vec::new(alloc);
    frames.push(Frame::Hello(hello))?;
    Ok(frames)
}

/// Commits its values by the pairs of a grant's units, which it hands back with the corrections.
fn commit<'f, R: Threads + Sync, W: Witness>(
    rt: &R,
    alloc: Global,
    witness: &W,
    file: &'f ProverFile,
    given: Grant,
    came: &[Vec<TreeReply>],
) -> Result<(Correlations<'f, Pair>, Vec<Fe>), AllocError>
    requires shared { IsSync R.row }
    requires suits { SuitsClaim (W.claim witness.now) file.now.params given }
    requires within { given.start + given.count ≤ file.now.params.total }
    requires whole { file.now.params.kind ≡ Extended → length came.now ≡ given.count }
    requires each { All (AreReplies file.now.params.height file.now.params.trees) (lists_of came.now) }
    ensures made { IfOk result (λ both. ArePairsOf file.now file.now.params.kind given (lists_of came.now) (items_in both.0)) }
    ensures enough { IfOk result (λ both. claim_needs (W.claim witness.now) given.section_length ≤ length (items_in both.0)) }
    ensures honest { IfOk result (λ both. both.1.items ≡ honest_corrections (W.given witness.now) (items_in both.0)) }
    ensures fit { IfOk result (λ both. AreElements (W.claim witness.now).givens both.1.items) }
{
    let _total = file.total();
    let pairs = pairs_of(rt, alloc, file, given, came)?;
    let elements = witness.corrections(alloc, pairs.as_slice())?;
    Ok((pairs, elements))
}

impl<'a, O: Claimant, W: Witness> Voice<O> for Proving<'a, W> {
    ghost use Rattle.std.specs.Prelude.{[], ◌∷◌, map};
    ghost use Rattle.zk_model.specs.Frames as model;
    ghost use Rattle.zk_model.specs.declared.Side.TheVariants.{Prover};
    ghost use Rattle.proof_frames.specs.Frames.{frame_value};
    ghost use Rattle.round_fan.specs.Fans.{lists_of};
    ghost use Rattle.wire_auth.specs.Held.{items_in};
    ghost use Rattle.session_prover.specs.Stages.{claimant_tells};
    ghost use Rattle.claim_prover.specs.Telling.{Known, ProverTask, knowledge_of, known_of, prover_rules};

    type Fault = ProvingFault;

    ghost side = { Prover };

    ghost Task = { ProverTask W };

    ghost Known = { Known O };

    ghost rules = { λ t. prover_rules (claimant_tells O.asked O.answer O.total O.moves)
        (knowledge_of (W.claim t.witness) (W.said t.witness) (W.given t.witness) (W.replying t.witness)) t.file };

    ghost task = { λ v. record { witness = v.witness.now; file = v.file.now } };

    ghost known = { λ v asked. known_of (record {
      given = v.given;
      asks = lists_of v.asks.items;
      replies = lists_of v.replies.items;
      pairs = items_in v.pairs;
      challenge = v.challenge;
      answers = map frame_value v.answers.items;
      verdict = v.verdict;
    }) asked };

    ghost greeting = { λ t. model.hello (W.said t.witness t.file.id) ∷ [] };

    fn side(&self) -> Side {
        Side::Prover
    }

    fn behind(&self, alloc: Global, grant: Grant) -> Result<VecDeque<Expect>, AllocError> {
        claim_behind(alloc, &self.file.params(), self.witness, grant)
    }

    fn code(&self, _fault: &ProvingFault) -> u8 {
        4
    }

    fn greeting(&self, alloc: Global) -> Result<Vec<Frame>, AllocError> {
        hello_alone(alloc, self.witness, self.file)
    }

    fn hear<R: Threads + Sync>(
        &mut self,
        rt: &R,
        alloc: Global,
        asked: &mut O,
        place: Expect,
        frame: Frame,
    ) -> Result<(), ProvingFault> {
        asks_are_in_range();
        let _total = self.file.total();
        self.witness.has_places();
        match place {
            Expect::Grant => {
                let grant = grant_in(frame)?;
                self.asks = take_grant(alloc, self.witness, self.file, asked, grant)?;
                self.given = Some(grant);
                Ok(())
            }
            Expect::Reply { .. } => Ok(keep_replies(&mut self.replies, replies_in(frame))?),
            Expect::Challenge => {
                let given = the_grant(&self.given);
                let element = challenge_in(frame);
                let pairs = self.pairs.as_slice();
                let answers = self
                    .witness
                    .answer(rt, alloc, pairs, given.section, element)?;
                self.answers = VecDeque::from(answers);
                self.challenge = Some(element);
                Ok(())
            }
            Expect::Verdict | Expect::PolyVerdict => {
                self.verdict = Some(verdict_in(frame));
                Ok(())
            }
            _ => unreachable!(),
        }
    }

    fn say<R: Threads + Sync>(
        &mut self,
        rt: &R,
        alloc: Global,
        _asked: &mut O,
        place: Expect,
    ) -> Result<Frame, ProvingFault> {
        asks_are_in_range();
        let _total = self.file.total();
        self.witness.has_places();
        match place {
            Expect::Ask { .. } => Ok(Frame::ExtendAsk(next_asks(&mut self.asks))),
            Expect::Corrections { .. } => {
                let given = the_grant(&self.given);
                let (pairs, elements) = commit(
                    rt,
                    alloc,
                    self.witness,
                    self.file,
                    given,
                    &self.replies,
                )?;
                self.pairs = pairs;
                Ok(Frame::Corrections(elements))
            }
            Expect::Sums { .. } => Ok(next_answer(&mut self.answers)),
            Expect::Openings { .. } => Ok(next_answer(&mut self.answers)),
            Expect::PolySums { .. } => Ok(next_answer(&mut self.answers)),
            _ => unreachable!(),
        }
    }
}
