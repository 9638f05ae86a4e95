// What a prover knows for constraints.
ghost use Rattle.std.specs.Prelude.{◌≡◌, ◌+◌, ◌-◌, ◌≤◌, length, IfOk};
ghost use Rattle.zk_model.specs.Bytes.{AreBytes};
ghost use Rattle.zk_model.specs.Frames.{AreElements};
ghost use Rattle.zk_model.specs.HonestProver.{honest_corrections};
ghost use Rattle.zk_model.specs.Transcript.{IsHello};
ghost use Rattle.poly_model.specs.Constraints.{degree};
ghost use Rattle.poly_model.specs.ConstraintCheck.{honest_sums};
ghost use Rattle.poly_model.specs.declared.limits.TheConstants.{MAX_VARIABLES};
ghost use Rattle.poly_session.specs.PolyClaims.{masks_of};
ghost use Rattle.poly_session.specs.PolyWitnesses.{poly_hello, valued_pairs};

use crate::poly_claim::{POLY_VERSION, PolyClaim};
use claim_prover::Witness;
use mersenne_field::{Fe, Pair};
use poly_check::poly_sums;
use poly_model::Polys;
use proof_frames::{Frame, Hello};
use session_claim::Claim;
use session_core::{HelloDiffers, Judgement};
use sha2::{Digest, Sha256};
use std::alloc::{AllocError, Global};
use std::thread::Threads;
use zk_model::Expect;

/// Values of all variables of constraints, which a prover says to meet them.
#[derive(Debug, Drop)]
pub struct PolyWitness<'a> {
    claim: PolyClaim<'a>,
    values: &'a [Fe],
    ghost counted: { length values.now ≡ claim.polys.now.variables },
    ghost octets: { AreBytes 32 claim.digest },
}

/// The hello about constraints of a text with this digest.
fn hello_of(id: [u8; 32], digest: [u8; 32]) -> Hello
    requires id { AreBytes 32 id }
    requires digest { AreBytes 32 digest }
    ensures said { result ≡ poly_hello id digest }
    ensures fits { IsHello result }
{
    Hello {
        id,
        circuit: digest,
        outputs: Sha256::digest(&[]),
        version: POLY_VERSION,
        public: None,
    }
}

/// The corrections that turn dealt pairs into those of these values.
fn corrections_of(alloc: Global, values: &[Fe], pairs: &[Pair]) -> Result<Vec<Fe>, AllocError>
    requires enough { length values.now ≤ length pairs.now }
    ensures fit { IfOk result (λ d. AreElements (length values.now) d.items) }
    ensures honest { IfOk result (λ d. d.items ≡ honest_corrections values.now pairs.now) }
{
    values
        .iter()
        .zip(pairs)
        .map(|(value, pair)| *value - pair.x)
        .collect(alloc)
}

/// Dealt pairs with these values in place of theirs.
fn pairs_of(alloc: Global, values: &[Fe], pairs: &[Pair]) -> Result<Vec<Pair>, AllocError>
    ensures { IfOk result (λ valued. valued.items ≡ valued_pairs values.now pairs.now) }
{
    values
        .iter()
        .zip(pairs)
        .map(|(value, pair)| Pair {
            x: *value,
            m: pair.m,
        })
        .collect(alloc)
}

/// The sums that answer a challenge.
fn sums_of(
    alloc: Global,
    polys: &Polys,
    values: &[Fe],
    pairs: &[Pair],
    challenge: Fe,
) -> Result<Vec<Fe>, AllocError>
    requires enough { polys.now.variables + (degree polys.now - 1) ≤ length pairs.now }
    ensures sums { IfOk result (λ sums. sums.items
        ≡ honest_sums polys.now (valued_pairs values.now pairs.now) challenge (masks_of polys.now pairs.now)) }
    ensures fit { IfOk result (λ sums. AreElements (degree polys.now) sums.items) }
{
    let valued = pairs_of(alloc, values, pairs)?;
    let (_, behind) = pairs.split_at(polys.variables() as usize);
    let masks = &behind[..polys.degree() - 1];
    let sums = poly_sums(alloc, polys, &valued, challenge, masks)?;
    Ok(sums)
}

impl<'a> PolyWitness<'a> {
    /// A value for each of at most 65,536 variables of the constraints of a text with this digest.
    pub fn new(polys: &'a Polys, digest: [u8; 32], values: &'a [Fe]) -> Self
        requires few { polys.now.variables ≤ MAX_VARIABLES }
        requires octets { AreBytes 32 digest }
        requires counted { length values.now ≡ polys.now.variables }
        ensures constraints { result.claim.polys.now ≡ polys.now }
        ensures digest { result.claim.digest ≡ digest }
        ensures values { result.values.now ≡ values.now }
    {
        let claim = PolyClaim::new(polys, digest);
        PolyWitness { claim, values }
    }
}

impl<'a> Claim for PolyWitness<'a> {
    ghost use Rattle.poly_session.specs.PolyClaims.{poly_claim};

    ghost claim = { λ w. poly_claim w.claim.polys.now w.claim.digest };

    fn hello_place(&self) -> Expect {
        self.claim.hello_place()
    }

    fn difference(&self, id: [u8; 32], hello: &Hello) -> Option<HelloDiffers> {
        self.claim.difference(id, hello)
    }

    fn givens(&self) -> usize {
        self.claim.givens()
    }

    fn need(&self, section: u32) -> u64 {
        self.claim.need(section)
    }

    fn has_places(&self) {
        self.claim.has_places();
    }

    fn is_sound(&self) {
        self.claim.is_sound();
    }

    fn is_decided(&self) {
        self.claim.is_decided();
    }

    fn answers(&self, alloc: Global, section: u32) -> Result<Vec<Expect>, AllocError> {
        self.claim.answers(alloc, section)
    }

    fn verdict_place(&self) -> Expect {
        self.claim.verdict_place()
    }

    fn judge<R: Threads + Sync>(
        &self,
        rt: &R,
        alloc: Global,
        key: Fe,
        keys: &[Fe],
        section: u32,
        corrections: &[Fe],
        challenge: Fe,
        answers: &[Frame],
    ) -> Result<Judgement, AllocError> {
        self.claim.judge(
            rt,
            alloc,
            key,
            keys,
            section,
            corrections,
            challenge,
            answers,
        )
    }
}

impl<'a> Witness for PolyWitness<'a> {
    ghost use Rattle.poly_session.specs.PolyWitnesses.{poly_hello, poly_replies};

    ghost said = { λ w id. poly_hello id w.claim.digest };

    ghost given = { λ w. w.values.now };

    ghost replying = { λ w pairs section_length challenge.
        poly_replies w.claim.polys.now w.values.now pairs challenge };

    fn hello(&self, id: [u8; 32]) -> Hello {
        hello_of(id, self.claim.digest)
    }

    fn corrections(&self, alloc: Global, pairs: &[Pair]) -> Result<Vec<Fe>, AllocError> {
        corrections_of(alloc, self.values, pairs)
    }

    fn answer<R: Threads + Sync>(
        &self,
        _rt: &R,
        alloc: Global,
        pairs: &[Pair],
        _section: u32,
        challenge: Fe,
    ) -> Result<Vec<Frame>, AllocError> {
        let sums = sums_of(alloc, self.claim.polys, self.values, pairs, challenge)?;
        let mut answers = Vec::new(alloc);
        answers.push(Frame::PolySums(sums))?;
        Ok(answers)
    }
}
