// What a hello says, and whether it is for a file and a statement.
ghost use Rattle.std.specs.Prelude.{◌≡◌, true, false, IfSome, IfNone};
ghost use Rattle.zk_model.specs.Transcript.{HasForm, IsHelloFor, digest_said};
ghost use Rattle.session_core.specs.Jobs.{IsHelloOf};
ghost use Rattle.session_core.specs.Cores.{digests_said, DiffersFirst};

use crate::fault::{Digests, HelloDiffers};
use crate::statement::{Statement, version_of};
use crate::verifier_job::VerifierJob;
use proof_frames::Hello;
use sha2::{Digest, Sha256};

/// The digest of public bits that a hello says: in the short form that of the empty text.
fn digest_said(hello: &Hello) -> [u8; 32]
    ensures { result ≡ digest_said hello.now }
{
    match hello.public {
        Some(digest) => digest,
        None => Sha256::digest(&[]),
    }
}

/// The digests that a hello says.
fn digests_said(hello: &Hello) -> Digests
    ensures { result ≡ digests_said hello.now }
{
    Digests {
        circuit: hello.circuit,
        outputs: hello.outputs,
        public: digest_said(hello),
    }
}

/// What differs first in a hello, of a form that is allowed, for the files of this id and a statement, and nothing exactly where a
/// verifier takes it.
pub fn difference(id: [u8; 32], statement: &Statement<'_>, hello: &Hello) -> Option<HelloDiffers>
    requires form { HasForm statement.now.kind hello.now.public }
    ensures differs { IfSome result (DiffersFirst id statement.now hello.now) }
    ensures fits { IfNone result (IsHelloFor id statement.now hello.now) }
{
    if hello.id != id {
        return Some(HelloDiffers::Id {
            want: id,
            got: hello.id,
        });
    }
    let version = version_of(statement.kind(), hello.public);
    if hello.version != version {
        return Some(HelloDiffers::Version {
            want: version,
            got: hello.version,
        });
    }
    let want = statement.digests();
    let got = digests_said(hello);
    if want != got {
        return Some(HelloDiffers::Statement { want, got });
    }
    None
}

/// Whether a hello is for the file and the statement of a job.
pub(crate) fn is_hello_of(job: &VerifierJob<'_>, hello: &Hello) -> bool
    requires form { HasForm job.now.task.statement.kind hello.now.public }
    ensures yes { result ≡ true → IsHelloOf job.now hello.now }
    ensures no { result ≡ false → ¬ IsHelloOf job.now hello.now }
{
    difference(job.file().id(), job.statement(), hello).is_none()
}
