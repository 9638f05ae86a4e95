// Sessions with whoever calls at an address, over the journal of a verifier's file.
ghost use Rattle.std.specs.Prelude.{◌≡◌, ◌<◌, ℕ, List, All, AllPairs, Some, IfSome, IfOk, IfErr, OnErr, length, string_bytes};
ghost use Rattle.std.specs.Option.{option_map};
ghost use Rattle.zk_port.specs.Changes.{change};
ghost use Rattle.lease_store.specs.Ceilings.{HasCeilingHeader};
ghost use Rattle.lease_store.specs.Desks.{Begins};
ghost use Rattle.lease_store.specs.Leases.{IsPassAt};
ghost use Rattle.session_pool.specs.Doors.{TakesLinks};
ghost use Rattle.session_pool.specs.Notes.{AreGrantsApart, IsLeft, IsNoteOf, IsRefusedAmong, IsUnused};
ghost use Rattle.session_verifier.specs.Outcomes.{grant_fault};
ghost use Rattle.session_verifier.specs.ServiceLogs.{TriesLogs};
ghost use Rattle.command_words.specs.Commands.{AreServeLimits, named_options};
ghost use Rattle.file_commands.specs.Journals.{IsJournalDisk, disk_change};
ghost use Rattle.session_service.specs.ServiceRuns.{LeadsSessions, StopsListening, place_of, sessions_by};

use crate::sessions::Sessions;
use crate::watched::{Watched, serve_watched};
use command_words::ServeOptions;
use dealer_files::VerifierFile;
use file_commands::{Refusal, open_ceilings, say_start};
use lease_store::LeaseParts;
use lease_words::Pass;
use session_pool::Served;
use session_verifier::{LogFaults, LogLoan, SessionNote};
use std::alloc::Global;
use std::marker::Brand;
use std::sync::Wait;
use std::thread::Threads;
use zk_port::{Access, Disk, Door, PortFault, Shelf, Sink};

/// Where sessions are led: the address, the name of the file whose journal has their units, and how.
#[derive(Drop)]
pub struct ServicePlace<'a> {
    pub address: &'a str,
    pub file: &'a str,
    pub options: &'a ServeOptions<String>,
}

/// The sessions that were led, with the door and the disk, and what became of the calls for their logs.
#[derive(Drop)]
pub struct LedSessions<B, D: Door> {
    pub served: Served<SessionNote<D::Link>, D, B>,
    pub faults: LogFaults,
}

/// Why no session was led, with the disk and the door as they are then.
#[derive(Drop)]
pub struct Unled<B, D> {
    pub refusal: Refusal,
    pub journal: B,
    pub door: D,
}

/// Leads sessions with the peers that call at the door, which listens, by the passes of an open journal. Their logs are kept as they end.
fn lead_sessions<R, F, E, D, B, S>(
    rt: &R,
    alloc: Global,
    sessions: &S,
    shelf: &mut F,
    notices: &mut E,
    options: &ServeOptions<String>,
    parts: LeaseParts<B>,
    passes: Vec<Pass>,
    door: D,
) -> LedSessions<B, D>
where
    R: Threads + Wait + Sync,
    F: Shelf + Send,
    E: Sink + Send,
    D: Door + Drop + Send,
    D::Link: Drop + Send,
    B: Disk + Drop + Send,
    S: Sessions<D::Link> + Sync,
    requires own { All (IsPassAt parts.table parts.total) passes.items }
    requires all { length passes.items ≡ parts.passes }
    requires some { 0 < length passes.items }
    requires total { parts.total ≡ S.total sessions.now }
    requires header { (bytes : List ℕ) → (B.state parts.disk).content ≡ Some bytes
        → HasCeilingHeader (S.id sessions.now) parts.total bytes }
    requires begins { Begins (B.state parts.disk) (B.state parts.disk) }
    ensures notes { All (IsNoteOf (S.is_note sessions.now)) result.served.notes.items }
    ensures taken { TakesLinks options.now.sessions (length result.served.notes.items)
        result.served.door_failed result.served.memory_failed (D.state door) (D.state result.served.door) }
    ensures apart { AllPairs (λ m n. AreGrantsApart m.granted n.granted) result.served.notes.items }
    ensures left { IsLeft (All IsUnused passes.items) (B.state parts.disk) (B.state result.served.disk)
        (S.id sessions.now) parts.base parts.total parts.passes (S.size sessions.now)
        (λ n. n.granted) (λ n. grant_fault n.outcome) result.served.notes.items }
    ensures refused { All IsUnused passes.items → All (λ note. IfSome (grant_fault note.outcome)
        (IsRefusedAmong (S.size sessions.now) parts.base parts.total result.served.notes.items note))
        result.served.notes.items }
    ensures tried { TriesLogs (option_map string_bytes options.now.logs)
        (change (F.state shelf.old) (F.state shelf.new)) result.faults.failed }
{
    let loan = LogLoan { shelf, notices };
    let watched = serve_watched::<F, E, Brand, D, B, R, S>(
        rt, alloc, sessions, loan, options, parts, passes, door,
    );
    let Watched {
        served,
        faults,
        notices: _notices,
        shelf: _shelf,
    } = watched;
    LedSessions { served, faults }
}

/// Opens the file's journal, listens, and leads sessions with the peers that call; whoever follows is told of how many units at most one of
/// them takes.
pub fn serve_sessions<R, F, E, D, B, S>(
    rt: &R,
    alloc: Global,
    shelf: &mut F,
    notices: &mut E,
    sessions: &S,
    file: &VerifierFile,
    most: u64,
    place: &ServicePlace<'_>,
    journal: B,
    mut door: D,
) -> Result<LedSessions<B, D>, Unled<B, D>>
where
    R: Threads + Wait + Sync,
    F: Shelf + Send,
    E: Sink + Send,
    D: Door + Drop + Send,
    D::Link: Drop + Send,
    B: Disk + Drop + Send,
    S: Sessions<D::Link> + Sync,
    requires disk { IsJournalDisk (B.state journal) }
    requires limits { AreServeLimits (named_options place.now.options.now) }
    requires id { S.id sessions.now ≡ file.now.id }
    requires total { S.total sessions.now ≡ file.now.params.total }
    requires most { 0 < most }
    ensures leads { IfOk result (λ led. LeadsSessions (place_of place.now)
        (sessions_by (S.id sessions.now) (S.total sessions.now) (S.size sessions.now) (S.is_note sessions.now))
        led.served.notes.items led.served.door_failed led.served.memory_failed
        (disk_change (B.state journal) (B.state led.served.disk))
        (change (D.state door) (D.state led.served.door))) }
    ensures tried { IfOk result (λ led. TriesLogs (place_of place.now).options.logs
        (change (F.state shelf.old) (F.state shelf.new)) led.faults.failed) }
    ensures stop { IfErr result (λ unled. StopsListening (place_of place.now) file.now.id file.now.params.total
        (disk_change (B.state journal) (B.state unled.journal))
        (change (D.state door) (D.state unled.door)) unled.refusal) }
    ensures unasked { OnErr result (F.state shelf.new ≡ F.state shelf.old) }
{
    let options = place.options;
    let opened = open_ceilings(
        alloc,
        journal,
        place.file,
        Access::Own,
        file,
        options.workers,
    );
    let (parts, passes) = match opened {
        Ok(opened) => opened,
        Err((refusal, journal)) => {
            return Err(Unled {
                refusal,
                journal,
                door,
            });
        }
    };
    let refusal = match door.listen(alloc, place.address, options.timeout, options.sessions) {
        Ok(()) => {
            let left = file.total().saturating_sub(parts.base());
            say_start(alloc, notices, &door, options.follow, left, most);
            let led = lead_sessions(
                rt, alloc, sessions, shelf, notices, options, parts, passes, door,
            );
            return Ok(led);
        }
        Err(PortFault::Failed) => Refusal::DoorFailed,
        Err(PortFault::NoMemory) => Refusal::NoMemory,
    };
    let journal = parts.into_disk();
    Err(Unled {
        refusal,
        journal,
        door,
    })
}
