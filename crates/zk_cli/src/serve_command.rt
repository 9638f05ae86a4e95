// `serve`, `serve-many` and `serve-arith`: sessions about claims over a verifier's file.
ghost use Rattle.std.specs.Prelude.{◌≡◌, ◌≤◌, ◌<◌, ℕ, List, All, AllPairs, Some, IfSome, false, IfOk, IfErr, OnErr, length, string_bytes};
ghost use Rattle.std.specs.Option.{option_map};
ghost use Rattle.lease_store.specs.Ceilings.{HasCeilingHeader};
ghost use Rattle.lease_store.specs.Desks.{Begins};
ghost use Rattle.lease_store.specs.Leases.{IsPassAt};
ghost use Rattle.session_pool.specs.Doors.{TakesLinks};
ghost use Rattle.session_pool.specs.Notes.{AreGrantsApart, IsLeft, IsNoteOf, IsRefusedAmong, IsUnused};
ghost use Rattle.session_verifier.specs.Outcomes.{grant_fault};
ghost use Rattle.session_verifier.specs.Sessions.{IsAnsweredNote};
ghost use Rattle.zk_port.specs.Changes.{change};
ghost use Rattle.zk_model.specs.declared.limits.TheConstants.{MAX_STATEMENTS};
ghost use Rattle.session_verifier.specs.ServiceLogs.{TriesLogs};
ghost use Rattle.session_verifier.specs.declared.note.VerifierOutcome.TheVariants.{Accepted};
ghost use Rattle.command_words.specs.Commands.{AreServeLimits, known_bits, named_options, serve_arith_of, serve_of};
ghost use Rattle.command_words.specs.declared.asks.Ask.TheVariants.{Serve as serve, ServeArith as serve_arith};
ghost use Rattle.file_commands.specs.Journals.{IsJournalDisk, disk_change};
ghost use Rattle.file_commands.specs.Effects.{OnlyLoads, effects};
ghost use Rattle.claim_files.specs.NamedClaims.{AreOfOneKind};
ghost use Rattle.claim_files.specs.Services.{service_asked, service_of_arith};
ghost use Rattle.zk_cli.specs.Runs.{EachNote, OfNotes};
ghost use Rattle.zk_cli.specs.ServeRuns.{TakeFewUnits, IsLoadedName, LeadsFiles, LeadsJobs};
ghost use Rattle.zk_cli.specs.ServeRuns.{OpeningStop, Serves, ServeStop, service_of, units_of_note};
ghost use Rattle.zk_cli.specs.ServedNotes.{GrantsOnce, GrantsOnceIn, ShowsClaim, ShowsClaims};

use crate::finish::{Ending, Finish, Part, Ports};
use crate::serve_jobs::{fit_jobs, most_units, statements_of};
use crate::service_files::load_files;
use crate::watched::{Watched, serve_watched};
use arith_reader::texts_are_exact;
use bristol_reader::one_circuit;
use claim_files::{ClaimNames, NamedElements};
use command_words::{ServeArithAsk, ServeAsk, ServeManyAsk, ServeOptions};
use element_file::elements_are_exact;
use file_commands::{Refusal, Unheard, open_ceilings, say_start, say_stop};
use lease_store::{LeaseParts, ceilings_start_again};
use lease_words::Pass;
use session_core::VerifierJobs;
use session_laws::{extracted_shows_elements, extracted_shows_outputs};
use session_pool::Served;
use session_verifier::{LogFaults, LogLoan, SessionNote, order_notes, say_service};
use statement_file::NamedClaim;
use std::alloc::Global;
use std::marker::Brand;
use std::slice::from_ref;
use std::sync::Wait;
use std::thread::Threads;
use zk_port::{Access, Disk, Door, PortFault, Shelf, Sink};

/// What is served: where, over which file, about these claims, and how.
pub type Service<'a> = ServeManyAsk<String, &'a [ClaimNames]>;

/// Why nothing is served, with the disk and the door as they are then.
#[derive(Drop)]
pub(crate) struct Stopped<B, D> {
    pub refusal: Refusal,
    pub ports: Ports<B, D>,
}

/// The sessions that were led, and what became of the calls for their logs.
#[derive(Drop)]
struct Led<B, D: Door> {
    served: Served<SessionNote<D::Link>, D, B>,
    faults: LogFaults,
}

/// Leads the sessions about these jobs with the peers that call at the door, which listens, by the passes of an open journal. Their logs are
/// kept as they end.
fn lead_sessions<R, F, E, D, B>(
    rt: &R,
    alloc: Global,
    jobs: &VerifierJobs<'_>,
    shelf: &mut F,
    notices: &mut E,
    options: &ServeOptions<String>,
    parts: LeaseParts<B>,
    passes: Vec<Pass>,
    door: D,
) -> Led<B, D>
where
    R: Threads + Wait + Sync,
    F: Shelf + Send,
    E: Sink + Send,
    D: Door + Drop + Send,
    D::Link: Drop + Send,
    B: Disk + Drop + Send,
    requires own { All (IsPassAt parts.table parts.total) passes.items }
    requires all { length passes.items ≡ parts.passes }
    requires some { 0 < length passes.items }
    requires total { parts.total ≡ jobs.now.first.task.file.params.total }
    requires header { (bytes : List ℕ) → (B.state parts.disk).content ≡ Some bytes
        → HasCeilingHeader jobs.now.first.task.file.id parts.total bytes }
    requires begins { Begins (B.state parts.disk) (B.state parts.disk) }
    ensures notes { All (IsNoteOf (IsAnsweredNote D.Link.state jobs.now)) result.served.notes.items }
    ensures taken { TakesLinks options.now.sessions (length result.served.notes.items)
        result.served.door_failed result.served.memory_failed (D.state door) (D.state result.served.door) }
    ensures apart { AllPairs (λ m n. AreGrantsApart m.granted n.granted) result.served.notes.items }
    ensures left { IsLeft (All IsUnused passes.items) (B.state parts.disk) (B.state result.served.disk)
        jobs.now.first.task.file.id parts.base parts.total parts.passes (units_of_note jobs.now)
        (λ n. n.granted) (λ n. grant_fault n.outcome) result.served.notes.items }
    ensures refused { All IsUnused passes.items → All (λ note. IfSome (grant_fault note.outcome)
        (IsRefusedAmong (units_of_note jobs.now) parts.base parts.total result.served.notes.items note))
        result.served.notes.items }
    ensures tried { TriesLogs (option_map string_bytes options.now.logs)
        (change (F.state shelf.old) (F.state shelf.new)) result.faults.failed }
{
    let loan = LogLoan { shelf, notices };
    let watched = serve_watched::<F, E, Brand, D, B, R>(
        rt, alloc, jobs, loan, options, parts, passes, door,
    );
    let Watched {
        served,
        faults,
        notices: _notices,
        shelf: _shelf,
    } = watched;
    Led { served, faults }
}

/// Opens the file's journal, listens, and leads the sessions about these jobs with the peers that call.
fn serve_jobs<R, F, E, D, B>(
    rt: &R,
    alloc: Global,
    shelf: &mut F,
    notices: &mut E,
    jobs: &VerifierJobs<'_>,
    service: &Service<'_>,
    ports: Ports<B, D>,
) -> Result<Led<B, D>, Stopped<B, D>>
where
    R: Threads + Wait + Sync,
    F: Shelf + Send,
    E: Sink + Send,
    D: Door + Drop + Send,
    D::Link: Drop + Send,
    B: Disk + Drop + Send,
    requires disk { IsJournalDisk (B.state ports.journal) }
    requires limits { AreServeLimits (named_options service.now.options) }
    requires few { TakeFewUnits jobs.now }
    ensures leads { IfOk result (λ led. LeadsJobs D.Link.state (service_of service.now) jobs.now
        led.served.notes.items led.served.door_failed led.served.memory_failed
        (disk_change (B.state ports.journal) (B.state led.served.disk))
        (change (D.state ports.door) (D.state led.served.door))) }
    ensures tried { IfOk result (λ led. TriesLogs (service_of service.now).options.logs
        (change (F.state shelf.old) (F.state shelf.new)) led.faults.failed) }
    ensures stop { IfErr result (λ stopped. OpeningStop (service_of service.now) jobs.now
        (disk_change (B.state ports.journal) (B.state stopped.ports.journal))
        (change (D.state ports.door) (D.state stopped.ports.door)) stopped.refusal) }
    ensures unasked { OnErr result (F.state shelf.new ≡ F.state shelf.old) }
{
    let Ports { journal, mut door } = ports;
    let options = &service.options;
    let file = jobs.job(0).file();
    let opened = open_ceilings(
        alloc,
        journal,
        &service.file,
        Access::Own,
        file,
        options.workers,
    );
    let (parts, passes) = match opened {
        Ok(opened) => opened,
        Err((refusal, journal)) => {
            let ports = Ports { journal, door };
            return Err(Stopped { refusal, ports });
        }
    };
    let refusal = match door.listen(alloc, &service.address, options.timeout, options.sessions) {
        Ok(()) => {
            let left = file.total().saturating_sub(parts.base());
            say_start(
                alloc,
                notices,
                &door,
                options.follow,
                left,
                most_units(jobs),
            );
            let led = lead_sessions(
                rt, alloc, jobs, shelf, notices, options, parts, passes, door,
            );
            return Ok(led);
        }
        Err(PortFault::Failed) => Refusal::DoorFailed,
        Err(PortFault::NoMemory) => Refusal::NoMemory,
    };
    let journal = parts.into_disk();
    let ports = Ports { journal, door };
    Err(Stopped { refusal, ports })
}

/// Loads what is named, makes the jobs of its claims, and serves them; or says why not.
fn serve_files<R, F, E, D, B>(
    rt: &R,
    alloc: Global,
    shelf: &mut F,
    notices: &mut E,
    service: &Service<'_>,
    ports: Ports<B, D>,
) -> Result<Led<B, D>, Stopped<B, D>>
where
    R: Threads + Wait + Sync,
    F: Shelf + Send,
    E: Sink + Send,
    D: Door + Drop + Send,
    D::Link: Drop + Send,
    B: Disk + Drop + Send,
    requires disk { IsJournalDisk (B.state ports.journal) }
    requires limits { AreServeLimits (named_options service.now.options) }
    requires some { 1 ≤ length service.now.statements.now }
    requires most { length service.now.statements.now ≤ MAX_STATEMENTS }
    requires kind { AreOfOneKind service.now.statements.now }
    ensures leads { IfOk result (λ led. LeadsFiles D.Link.state (service_of service.now)
        led.served.notes.items led.served.door_failed led.served.memory_failed (F.state shelf.old).told
        (disk_change (B.state ports.journal) (B.state led.served.disk))
        (change (D.state ports.door) (D.state led.served.door))) }
    ensures tried { IfOk result (λ led. TriesLogs (service_of service.now).options.logs
        (change (F.state shelf.old) (F.state shelf.new)) led.faults.failed) }
    ensures stop { IfErr result (λ stopped. ServeStop (service_of service.now)
        (change (F.state shelf.old) (F.state shelf.new))
        (disk_change (B.state ports.journal) (B.state stopped.ports.journal))
        (change (D.state ports.door) (D.state stopped.ports.door)) stopped.refusal) }
    ensures kept { OnErr result (OnlyLoads (IsLoadedName (service_of service.now))
        (change (F.state shelf.old) (F.state shelf.new))) }
{
    let files = match load_files(rt, alloc, shelf, service) {
        Ok(files) => files,
        Err(refusal) => return Err(Stopped { refusal, ports }),
    };
    let Ok(statements) = statements_of(alloc, &files.claims) else {
        let refusal = Refusal::NoMemory;
        return Err(Stopped { refusal, ports });
    };
    let jobs = match fit_jobs(alloc, &statements, &files.file, service.options.section) {
        Ok(jobs) => jobs,
        Err(refusal) => return Err(Stopped { refusal, ports }),
    };
    let [first, others @ ..] = jobs.as_slice() else {
        unreachable!();
    };
    let jobs = VerifierJobs::new(first, others);
    serve_jobs(rt, alloc, shelf, notices, &jobs, service, ports)
}

/// Serves sessions about the claims over the file's journal, keeps their logs, says what came of them and hands them back, in
/// the order of their first units, or says why none is served; with the status. How it goes is said to whoever hears it, where it is followed.
fn serve_heard<R, F, D, B, O, E>(
    rt: &R,
    alloc: Global,
    shelf: &mut F,
    ports: Ports<B, D>,
    out: &mut O,
    notices: &mut E,
    service: &Service<'_>,
) -> Finish<B, D>
where
    R: Threads + Wait + Sync,
    F: Shelf + Send,
    D: Door + Drop + Send,
    D::Link: Drop + Send,
    B: Disk + Drop + Send,
    O: Sink,
    E: Sink + Send,
    requires disk { IsJournalDisk (B.state ports.journal) }
    requires limits { AreServeLimits (named_options service.now.options) }
    requires some { 1 ≤ length service.now.statements.now }
    requires most { length service.now.statements.now ≤ MAX_STATEMENTS }
    requires kind { AreOfOneKind service.now.statements.now }
    ensures serves { Serves D.Link.state (service_of service.now) result.part
        (disk_change (B.state ports.journal) (B.state result.journal))
        (change (D.state ports.door) (D.state result.door))
        (effects result.status
        (change (F.state shelf.old) (F.state shelf.new)) (change (O.state out.old) (O.state out.new))) }
    ensures headline { EachNote result.part (λ note. note.outcome ≡ Accepted →
        ShowsClaim (F.state shelf.old).told (service_of service.now) note) }
    ensures once { OfNotes result.part (λ notes. GrantsOnce (F.state shelf.old).told (service_of service.now)
        notes (disk_change (B.state ports.journal) (B.state result.journal))) }
{
    one_circuit();
    texts_are_exact();
    elements_are_exact();
    ceilings_start_again();
    extracted_shows_outputs();
    extracted_shows_elements();
    match serve_files(rt, alloc, shelf, notices, service, ports) {
        Ok(led) => {
            let Led { served, faults } = led;
            let Served {
                mut notes,
                door,
                disk,
                door_failed,
                memory_failed,
            } = served;
            order_notes(&mut notes);
            let logs = service.options.logs.as_deref();
            let status = say_service(
                alloc,
                shelf,
                out,
                &notes,
                logs,
                faults,
                door_failed,
                memory_failed,
            );
            let journal = disk;
            let part = Part::Served(notes);
            Ports { journal, door }.end_with(Ending { status, part })
        }
        Err(Stopped { refusal, ports }) => ports.end(say_stop(alloc, out, refusal)),
    }
}

/// Serves sessions about the claims over the file's journal, keeps their logs, says what came of them and hands them back, in
/// the order of their first units, or says why none is served; with the status. Where it is followed, it says so as it goes.
pub fn run_service<R, F, D, B, O, E>(
    rt: &R,
    alloc: Global,
    shelf: &mut F,
    ports: Ports<B, D>,
    out: &mut O,
    notices: &mut E,
    service: &Service<'_>,
) -> Finish<B, D>
where
    R: Threads + Wait + Sync,
    F: Shelf + Send,
    D: Door + Drop + Send,
    D::Link: Drop + Send,
    B: Disk + Drop + Send,
    O: Sink,
    E: Sink + Send,
    requires disk { IsJournalDisk (B.state ports.journal) }
    requires limits { AreServeLimits (named_options service.now.options) }
    requires some { 1 ≤ length service.now.statements.now }
    requires most { length service.now.statements.now ≤ MAX_STATEMENTS }
    requires kind { AreOfOneKind service.now.statements.now }
    ensures serves { Serves D.Link.state (service_of service.now) result.part
        (disk_change (B.state ports.journal) (B.state result.journal))
        (change (D.state ports.door) (D.state result.door))
        (effects result.status
        (change (F.state shelf.old) (F.state shelf.new)) (change (O.state out.old) (O.state out.new))) }
    ensures headline { EachNote result.part (λ note. note.outcome ≡ Accepted →
        ShowsClaim (F.state shelf.old).told (service_of service.now) note) }
    ensures once { OfNotes result.part (λ notes. GrantsOnce (F.state shelf.old).told (service_of service.now)
        notes (disk_change (B.state ports.journal) (B.state result.journal))) }
    ensures quiet { service.now.options.follow ≡ false → E.state notices.new ≡ E.state notices.old }
{
    if service.options.follow {
        serve_heard(rt, alloc, shelf, ports, out, notices, service)
    } else {
        serve_heard(rt, alloc, shelf, ports, out, &mut Unheard, service)
    }
}

/// `serve ADDRESS FILE CIRCUIT OUTPUTS --sessions N [--workers W] [--section G] [--timeout S] [--logs PREFIX] [--follow]
/// [--public BITS]`: serves sessions about the claim that is asked for, or says why none is served; with the status.
pub fn run_serve<R, F, D, B, O, E>(
    rt: &R,
    alloc: Global,
    shelf: &mut F,
    ports: Ports<B, D>,
    out: &mut O,
    notices: &mut E,
    ask: ServeAsk<String, Vec<bool>>,
) -> Finish<B, D>
where
    R: Threads + Wait + Sync,
    F: Shelf + Send,
    D: Door + Drop + Send,
    D::Link: Drop + Send,
    B: Disk + Drop + Send,
    O: Sink,
    E: Sink + Send,
    requires disk { IsJournalDisk (B.state ports.journal) }
    requires limits { AreServeLimits (named_options ask.options) }
    ensures serves { Serves D.Link.state (service_asked (serve_of known_bits ask)) result.part
        (disk_change (B.state ports.journal) (B.state result.journal))
        (change (D.state ports.door) (D.state result.door))
        (effects result.status
        (change (F.state shelf.old) (F.state shelf.new)) (change (O.state out.old) (O.state out.new))) }
    ensures headline { ShowsClaims (F.state shelf.old).told (serve (serve_of known_bits ask)) result.part }
    ensures once { GrantsOnceIn B.state (F.state shelf.old).told (serve (serve_of known_bits ask))
        result.part (change ports.journal result.journal) }
    ensures quiet { ask.options.follow ≡ false → E.state notices.new ≡ E.state notices.old }
{
    let named = NamedClaim::new(ask.circuit, ask.public, ask.outputs);
    let claim = ClaimNames::Boolean(named);
    let service = ServeManyAsk {
        address: ask.address,
        file: ask.file,
        statements: from_ref(&claim),
        options: ask.options,
    };
    run_service(rt, alloc, shelf, ports, out, notices, &service)
}

/// `serve-arith ADDRESS FILE CIRCUIT OUTPUTS --sessions N [--workers W] [--section G] [--timeout S] [--logs PREFIX] [--follow]`: serves
/// sessions about the claim that the arithmetic circuit gives the elements of that file, or says why none is served; with the status.
pub fn run_serve_arith<R, F, D, B, O, E>(
    rt: &R,
    alloc: Global,
    shelf: &mut F,
    ports: Ports<B, D>,
    out: &mut O,
    notices: &mut E,
    ask: ServeArithAsk<String>,
) -> Finish<B, D>
where
    R: Threads + Wait + Sync,
    F: Shelf + Send,
    D: Door + Drop + Send,
    D::Link: Drop + Send,
    B: Disk + Drop + Send,
    O: Sink,
    E: Sink + Send,
    requires disk { IsJournalDisk (B.state ports.journal) }
    requires limits { AreServeLimits (named_options ask.options) }
    ensures serves { Serves D.Link.state (service_of_arith (serve_arith_of ask)) result.part
        (disk_change (B.state ports.journal) (B.state result.journal))
        (change (D.state ports.door) (D.state result.door))
        (effects result.status
        (change (F.state shelf.old) (F.state shelf.new)) (change (O.state out.old) (O.state out.new))) }
    ensures headline { ShowsClaims (F.state shelf.old).told (serve_arith (serve_arith_of ask)) result.part }
    ensures once { GrantsOnceIn B.state (F.state shelf.old).told (serve_arith (serve_arith_of ask))
        result.part (change ports.journal result.journal) }
    ensures quiet { ask.options.follow ≡ false → E.state notices.new ≡ E.state notices.old }
{
    let named = NamedElements::new(ask.circuit, ask.outputs);
    let claim = ClaimNames::Arithmetic(named);
    let service = ServeManyAsk {
        address: ask.address,
        file: ask.file,
        statements: from_ref(&claim),
        options: ask.options,
    };
    run_service(rt, alloc, shelf, ports, out, notices, &service)
}
