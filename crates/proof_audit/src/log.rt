// The session of a log.
ghost use Rattle.std.specs.Prelude.{◌≡◌, ◌≢◌, ◌+◌, ◌<◌, ◌^◌, ℕ, List, length, IfErr, IfNone, IfOk, IfSome, IsFalse, IsTrue};
ghost use Rattle.zk_model.specs.Audit.{EndsEarly, IsNotAccepted};
ghost use Rattle.proof_audit.specs.declared.session.Session.{Session};
ghost use Rattle.proof_audit.specs.declared.session.Stage.TheVariants as at;
ghost use Rattle.proof_audit.specs.Sessions.{IsLogUnderWay, IsReadWhole, IsReadSession, IsFaultOf};

use crate::fault::AuditFault;
use crate::judge::Judge;
use crate::reading::LogReader;
use crate::session::{Session, Stage};
use std::alloc::Global;

/// Reads the frames of a log from a stage on, as long as there are places for more, and says whether there is none left: else the log
/// ends early.
fn read_frames(
    alloc: Global,
    judge: &Judge<'_>,
    reader: &mut LogReader<'_>,
    stage: &mut Stage,
) -> Result<bool, AuditFault>
    requires under_way { (log : List ℕ) × IsLogUnderWay judge.now log reader.old stage.old }
    requires short { reader.old.decoder.received + length reader.old.rest.now < 2 ^ 63 }
    ensures whole { IfOk result (λ whole. IsTrue whole → (log : List ℕ)
        → IsLogUnderWay judge.now log reader.old stage.old → IsReadWhole judge.now log reader.new stage.new) }
    ensures early { IfOk result (λ whole. IsFalse whole → (log : List ℕ)
        → IsLogUnderWay judge.now log reader.old stage.old → EndsEarly judge.now log) }
    ensures fault { IfErr result (λ fault. (log : List ℕ)
        → IsLogUnderWay judge.now log reader.old stage.old → IsFaultOf judge.now log fault) }
{
    'frames: while let Some(place) = judge.expects(stage) {
        let Some(frame) = reader.next(place)? else {
            return Ok(false);
        };
        if !judge.advance(alloc, stage, frame)? {
            let place = reader.at() - 1;
            return Err(AuditFault::LogFault { place });
        }
    }
    if !reader.is_at_end() {
        return Err(AuditFault::LogFault { place: reader.at() });
    }
    Ok(true)
}

/// The session of a stage that is accepted.
fn accepted(stage: Stage) -> Option<Session>
    ensures session { IfSome result (λ session. stage ≡ at.Accepted session) }
    ensures none { IfNone result ((session : Session) → stage ≢ at.Accepted session) }
{
    match stage {
        Stage::Accepted(session) => Some(session),
        _ => None,
    }
}

/// The session of a log, where it is accepted; none where the log ends early, or the session was refused or rejected.
///
/// # Errors
///
/// `LogFault` where the log has a fault, `NoMemory`.
pub(crate) fn read_session(
    alloc: Global,
    judge: &Judge<'_>,
    log: &[u8],
) -> Result<Option<Session>, AuditFault>
    ensures accepted { IfOk result (λ read. IfSome read (IsReadSession judge.now log.now)) }
    ensures not_accepted { IfOk result (λ read. IfNone read (IsNotAccepted judge.now log.now)) }
    ensures fault { IfErr result (IsFaultOf judge.now log.now) }
{
    let mut reader = LogReader::new(alloc, log);
    let mut stage = Stage::Hello;
    if !read_frames(alloc, judge, &mut reader, &mut stage)? {
        return Ok(None);
    }
    Ok(accepted(stage))
}
