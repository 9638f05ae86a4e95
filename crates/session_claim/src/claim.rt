// What a session proves.
ghost use Rattle.std.specs.Prelude.{◌≡◌, ◌≤◌, ◌^◌, All, length, map, IfOk, IfSome, IfNone};
ghost use Rattle.std.specs.Thread.{IsSync};
ghost use Rattle.zk_model.specs.Frames as frames;
ghost use Rattle.zk_model.specs.Frames.{Allows};
ghost use Rattle.zk_model.specs.View.{verdict_code, verdict_number};
ghost use Rattle.session_core.specs.Judgements.{verdict_in};
ghost use Rattle.zk_model.specs.declared.Expect.TheVariants as expect;
ghost use Rattle.proof_frames.specs.Frames.{frame_value};
ghost use Rattle.proof_frames.specs.Readings.{IsShortPlace};
ghost use Rattle.session_script.specs.Scripts.{weight};
ghost use Rattle.session_claim.specs.Claims.{HasPlaces, IsDecided, IsExchange, IsSound, claim_needs};

use mersenne_field::Fe;
use proof_frames::{Frame, Hello};
use session_core::{HelloDiffers, Judgement};
use std::alloc::{AllocError, Global};
use std::thread::Threads;
use zk_model::Expect;

/// What a session proves: a claim. Its values are committed by corrections of dealt correlations; then a challenge comes, and the
/// prover's answers, by which a verifier judges.
pub trait Claim {
    ghost use Rattle.session_claim.specs.Claims as model;

    ghost claim: { Self → model.Claim };

    /// The place of a hello about it.
    fn hello_place(&self) -> Expect
        ensures place { result ≡ (claim self.now).greeting }
        ensures short { IsShortPlace result };

    /// What differs first in a hello for files of this id, and nothing where a verifier takes it.
    fn difference(&self, id: [u8; 32], hello: &Hello) -> Option<HelloDiffers>
        requires allowed { Allows (claim self.now).greeting (frames.hello hello.now) }
        ensures differs { IfSome result ((claim self.now).differs id hello.now) }
        ensures fits { IfNone result ((claim self.now).greets id hello.now) };

    /// How many values it commits.
    fn givens(&self) -> usize
        ensures count { result ≡ (claim self.now).givens }
        ensures short { IsShortPlace (expect.Corrections result) };

    /// How many correlations a session about it takes, with sections of this length.
    fn need(&self, section: u32) -> u64
        requires { 1 ≤ section }
        ensures { result ≡ claim_needs (claim self.now) section };

    /// That its places are those of a hello, of answers and of a verdict.
    fn has_places(&self)
        ensures { HasPlaces (claim self.now) };

    /// That acceptance shows what it says.
    fn is_sound(&self)
        ensures { IsSound (claim self.now) };

    /// That a hello that differs is not for it, and that an exchange has one verdict.
    fn is_decided(&self)
        ensures { IsDecided (claim self.now) };

    /// The places of the prover's answers, for sections of this length.
    ///
    /// # Errors
    ///
    /// Only where memory runs out.
    fn answers(&self, alloc: Global, section: u32) -> Result<Vec<Expect>, AllocError>
        requires { 1 ≤ section }
        ensures places { IfOk result (λ places. places.items ≡ (claim self.now).answers section) }
        ensures short { IfOk result (λ places. All IsShortPlace places.items) }
        ensures few { IfOk result (λ places. weight places.items ≤ 2 ^ 20) };

    /// The place of its verdict.
    fn verdict_place(&self) -> Expect
        ensures place { result ≡ (claim self.now).verdict }
        ensures short { IsShortPlace result };

    /// What a verifier finds, by its key, the keys of all correlations, and what passed.
    ///
    /// # Errors
    ///
    /// Only where memory runs out.
    fn judge<R: Threads + Sync>(
        &self,
        rt: &R,
        alloc: Global,
        key: Fe,
        keys: &[Fe],
        section: u32,
        corrections: &[Fe],
        challenge: Fe,
        answers: &[Frame],
    ) -> Result<Judgement, AllocError>
        requires shared { IsSync R.row }
        requires some { 1 ≤ section }
        requires enough { claim_needs (claim self.now) section ≤ length keys.now }
        requires exchange { IsExchange (claim self.now) (record {
          section_length = section;
          corrections = corrections.now;
          challenge = challenge;
          answers = map frame_value answers.now;
        }) }
        ensures placed { IfOk result (λ judgement. Allows (claim self.now).verdict
            (frames.verdict (verdict_code (verdict_in judgement)) (verdict_number (verdict_in judgement)))) }
        ensures judged { IfOk result (λ judgement. (claim self.now).judges key keys.now (record {
          section_length = section;
          corrections = corrections.now;
          challenge = challenge;
          answers = map frame_value answers.now;
        }) judgement) };
}
