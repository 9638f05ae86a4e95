// Constraints as a claim.
ghost use Rattle.std.specs.Prelude.{◌≡◌, ◌+◌, ◌-◌, ◌≤◌, ◌∷◌, [], length, map, drop, take, IfOk, IfSome, IfNone};
ghost use Rattle.zk_model.specs.Frames as frames;
ghost use Rattle.zk_model.specs.Frames.{Allows};
ghost use Rattle.zk_model.specs.Mac.{corrected_keys};
ghost use Rattle.zk_model.specs.declared.Expect.TheVariants as expect;
ghost use Rattle.proof_frames.specs.Frames.{frame_value};
ghost use Rattle.poly_model.specs.Constraints.{degree};
ghost use Rattle.poly_model.specs.declared.limits.TheConstants.{MAX_VARIABLES};
ghost use Rattle.zk_model.specs.View.{verdict_code, verdict_number};
ghost use Rattle.session_core.specs.Judgements.{verdict_in};
ghost use Rattle.session_core.specs.Cores.{digests_said};
ghost use Rattle.poly_session.specs.PolyClaims.{IsPolyHello, PolyDiffersFirst, PolyJudges, masks_of, poly_digests};

use mersenne_field::Fe;
use poly_check::poly_verify;
use poly_laws::check_shows;
use poly_model::Polys;
use proof_frames::{Frame, Hello};
use session_claim::Claim;
use session_core::{Digests, HelloDiffers, Judgement};
use sha2::{Digest, Sha256};
use std::alloc::{AllocError, Global};
use std::thread::Threads;
use zk_model::Expect;

/// The version of a hello about constraints.
pub(crate) const POLY_VERSION: u8 = 3;

/// That values meet all constraints of a list, which a hello names by the digest of its text.
#[derive(Debug, Drop)]
pub struct PolyClaim<'a> {
    pub(crate) polys: &'a Polys,
    pub(crate) digest: [u8; 32],
    ghost few: { polys.now.variables ≤ MAX_VARIABLES },
}

/// The digests by which a hello names a text.
fn digests_of(digest: [u8; 32]) -> Digests
    ensures { result ≡ poly_digests digest }
{
    let empty = Sha256::digest(&[]);
    Digests {
        circuit: digest,
        outputs: empty,
        public: empty,
    }
}

/// The digests that a hello of 97 bytes says.
fn digests_in(hello: &Hello) -> Digests
    requires { Allows expect.ShortHello (frames.hello hello.now) }
    ensures { result ≡ digests_said hello.now }
{
    Digests {
        circuit: hello.circuit,
        outputs: hello.outputs,
        public: Sha256::digest(&[]),
    }
}

/// What differs first in a hello, and nothing where it is for files of this id and a text with this digest.
fn difference_of(id: [u8; 32], digest: [u8; 32], hello: &Hello) -> Option<HelloDiffers>
    requires { Allows expect.ShortHello (frames.hello hello.now) }
    ensures differs { IfSome result (PolyDiffersFirst id digest hello.now) }
    ensures fits { IfNone result (IsPolyHello id digest hello.now) }
{
    if hello.id != id {
        return Some(HelloDiffers::Id {
            want: id,
            got: hello.id,
        });
    }
    if hello.version != POLY_VERSION {
        return Some(HelloDiffers::Version {
            want: POLY_VERSION,
            got: hello.version,
        });
    }
    let want = digests_of(digest);
    let got = digests_in(hello);
    if want != got {
        return Some(HelloDiffers::Statement { want, got });
    }
    None
}

/// Keys of values that were corrected.
fn keys_corrected(
    alloc: Global,
    key: Fe,
    keys: &[Fe],
    corrections: &[Fe],
) -> Result<Vec<Fe>, AllocError>
    ensures { IfOk result (λ now. now.items ≡ corrected_keys key keys.now corrections.now) }
{
    keys.iter()
        .zip(corrections)
        .map(|(k, correction)| *k + *correction * key)
        .collect(alloc)
}

/// What is found of sums that were sent.
fn judge_sums(
    alloc: Global,
    polys: &Polys,
    key: Fe,
    keys: &[Fe],
    corrections: &[Fe],
    challenge: Fe,
    sums: &[Fe],
) -> Result<Judgement, AllocError>
    requires enough { polys.now.variables + (degree polys.now - 1) ≤ length keys.now }
    ensures placed { IfOk result (λ judgement. Allows expect.PolyVerdict
        (frames.verdict (verdict_code (verdict_in judgement)) (verdict_number (verdict_in judgement)))) }
    ensures judged { IfOk result (PolyJudges polys.now key keys.now corrections.now challenge sums.now) }
{
    let values = keys_corrected(alloc, key, keys, corrections)?;
    let (_, behind) = keys.split_at(polys.variables() as usize);
    let masks = &behind[..polys.degree() - 1];
    match poly_verify(polys, &values, key, challenge, masks, sums) {
        Ok(()) => Ok(Judgement::Accepted),
        Err(differs) => Ok(Judgement::RejectedSum {
            section: differs.section,
            left: differs.left,
            right: differs.right,
        }),
    }
}

impl<'a> PolyClaim<'a> {
    /// The claim about constraints of at most 65,536 values, of a text with this digest.
    pub fn new(polys: &'a Polys, digest: [u8; 32]) -> Self
        requires { polys.now.variables ≤ MAX_VARIABLES }
        ensures constraints { result.polys.now ≡ polys.now }
        ensures digest { result.digest ≡ digest }
    {
        PolyClaim { polys, digest }
    }
}

impl<'a> Claim for PolyClaim<'a> {
    ghost use Rattle.poly_session.specs.PolyClaims.{poly_claim};

    ghost claim = { λ c. poly_claim c.polys.now c.digest };

    fn hello_place(&self) -> Expect {
        Expect::ShortHello
    }

    fn difference(&self, id: [u8; 32], hello: &Hello) -> Option<HelloDiffers> {
        difference_of(id, self.digest, hello)
    }

    fn givens(&self) -> usize {
        self.polys.variables() as usize
    }

    fn need(&self, _section: u32) -> u64 {
        u64::from(self.polys.variables()) + (self.polys.degree() - 1) as u64
    }

    fn has_places(&self) {}

    fn is_sound(&self) {
        let _degree = self.polys.degree();
        check_shows();
    }

    fn is_decided(&self) {}

    fn answers(&self, alloc: Global, _section: u32) -> Result<Vec<Expect>, AllocError> {
        let count = self.polys.degree();
        let mut places = Vec::new(alloc);
        places.push(Expect::PolySums { count })?;
        Ok(places)
    }

    fn verdict_place(&self) -> Expect {
        Expect::PolyVerdict
    }

    fn judge<R: Threads + Sync>(
        &self,
        _rt: &R,
        alloc: Global,
        key: Fe,
        keys: &[Fe],
        _section: u32,
        corrections: &[Fe],
        challenge: Fe,
        answers: &[Frame],
    ) -> Result<Judgement, AllocError> {
        let [Frame::PolySums(sums)] = answers else {
            unreachable!();
        };
        judge_sums(alloc, self.polys, key, keys, corrections, challenge, sums)
    }
}
