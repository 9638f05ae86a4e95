// What a prover knows for a claim.
ghost use Rattle.std.specs.Prelude.{◌≡◌, ◌≤◌, length, map, All, IfOk};
ghost use Rattle.std.specs.Thread.{IsSync};
ghost use Rattle.zk_model.specs.Bytes.{AreBytes};
ghost use Rattle.zk_model.specs.Frames as frames;
ghost use Rattle.zk_model.specs.Frames.{Allows, AreElements};
ghost use Rattle.zk_model.specs.HonestProver.{honest_corrections};
ghost use Rattle.proof_frames.specs.Frames.{frame_value, IsShort};
ghost use Rattle.session_claim.specs.Claims.{AllowsEach, claim_needs};

use mersenne_field::{Fe, Pair};
use proof_frames::{Frame, Hello};
use session_claim::Claim;
use std::alloc::{AllocError, Global};
use std::thread::Threads;

/// What a prover knows for a claim: the values that it commits, and how it answers a challenge.
pub trait Witness: Claim {
    ghost use Rattle.std.specs.Prelude.{ℕ, List};
    ghost use Rattle.zk_model.specs.Frames as frames;
    ghost use Rattle.zk_model.specs.Mac.{Pair};
    ghost use Rattle.zk_model.specs.Transcript as transcript;

    /// The hello that it says, for files of this id.
    ghost said: { Self → List ℕ → transcript.Hello };

    /// The values that it commits.
    ghost given: { Self → List ℕ };

    /// The answers that it gives, of the pairs of all correlations, the length of sections and the challenge.
    ghost replying: { Self → List Pair → ℕ → ℕ → List frames.Frame };

    /// The hello that it says, one for its claim.
    fn hello(&self, id: [u8; 32]) -> Hello
        requires octets { AreBytes 32 id }
        ensures said { result ≡ said self.now id }
        ensures greets { (Self.claim self.now).greets id result }
        ensures allowed { Allows (Self.claim self.now).greeting (frames.hello result) };

    /// The corrections that make the values of the first pairs those that it commits.
    ///
    /// # Errors
    ///
    /// Only where memory runs out.
    fn corrections(&self, alloc: Global, pairs: &[Pair]) -> Result<Vec<Fe>, AllocError>
        requires enough { (Self.claim self.now).givens ≤ length pairs.now }
        ensures honest { IfOk result (λ d. d.items ≡ honest_corrections (given self.now) pairs.now) }
        ensures fit { IfOk result (λ d. AreElements (Self.claim self.now).givens d.items) };

    /// All its answers to a challenge, in order, each one that stands at its place.
    ///
    /// # Errors
    ///
    /// Only where memory runs out.
    fn answer<R: Threads + Sync>(
        &self,
        rt: &R,
        alloc: Global,
        pairs: &[Pair],
        section: u32,
        challenge: Fe,
    ) -> Result<Vec<Frame>, AllocError>
        requires shared { IsSync R.row }
        requires some { 1 ≤ section }
        requires enough { claim_needs (Self.claim self.now) section ≤ length pairs.now }
        ensures answers { IfOk result (λ answers. map frame_value answers.items ≡ replying self.now pairs.now section challenge) }
        ensures placed { IfOk result (λ answers. AllowsEach ((Self.claim self.now).answers section) (map frame_value answers.items)) };
}
