// How a session about a claim ended.
ghost use Rattle.std.specs.Prelude.{◌≡◌};
ghost use Rattle.claim_service.specs.ClaimNotes.{end_outcome};

use claim_verifier::{SessionEnd, VoiceFault};
use session_script::EndFault;
use session_verifier::VerifierOutcome;

/// How it ended, as a note says it.
pub(crate) fn outcome_of(end: SessionEnd) -> VerifierOutcome
    ensures { result ≡ end_outcome end }
{
    match end {
        SessionEnd::Judged { judgement } => VerifierOutcome::from(judgement),
        SessionEnd::Refused {
            fault: EndFault::OfVoice { fault },
        } => match fault {
            VoiceFault::BadHello(differs) => VerifierOutcome::BadHello(differs),
            VoiceFault::Grant(cause) => VerifierOutcome::from(cause),
            VoiceFault::NoMemory => VerifierOutcome::NoMemory,
        },
        SessionEnd::Refused {
            fault: EndFault::NoMemory,
        } => VerifierOutcome::NoMemory,
        SessionEnd::Cut { fault } => VerifierOutcome::from(fault),
    }
}
