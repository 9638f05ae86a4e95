// `serve-node`: sessions about a claim, with units of blocks that a broker leases to a node.
ghost use Rattle.std.specs.Prelude.{◌≡◌, ◌≤◌, None, false, IfOk, IfErr, OnOk, length};
ghost use Rattle.zk_port.specs.Changes.{change};
ghost use Rattle.zk_model.specs.declared.limits.TheConstants.{MAX_STATEMENTS};
ghost use Rattle.session_verifier.specs.declared.note.VerifierOutcome.TheVariants.{Accepted};
ghost use Rattle.command_words.specs.Commands.{AreNodeLimits, AreServeLimits, known_bits, named_options, serve_node_of};
ghost use Rattle.command_words.specs.declared.asks.Ask.TheVariants.{ServeNode as serve_node};
ghost use Rattle.file_commands.specs.Journals.{IsJournalDisk, disk_change};
ghost use Rattle.file_commands.specs.Effects.{OnlyLoads, effects};
ghost use Rattle.claim_files.specs.NamedClaims.{AreOfOneKind};
ghost use Rattle.claim_files.specs.Services.{service_of_node};
ghost use Rattle.zk_cli.specs.NodeServiceRuns.{LeadsAsNode, LeadsNodeFiles, LedByNode, ServesNode, claims_journal, place_asked, place_of};
ghost use Rattle.zk_cli.specs.Runs.{EachNote, OfNotes};
ghost use Rattle.zk_cli.specs.ServeRuns.{IsLoadedName, StopsOpening, StopsService, TakeFewUnits, service_of};
ghost use Rattle.zk_cli.specs.ServedNotes.{GrantsClaimedOnce, GrantsOnceIn, ShowsClaim, ShowsClaims};

use crate::finish::{Ending, Finish, Part, Ports};
use crate::serve_command::{Service, Stopped};
use crate::serve_jobs::{fit_jobs, most_units, statements_of};
use crate::service_files::load_files;
use arith_reader::texts_are_exact;
use bristol_reader::one_circuit;
use claim_files::ClaimNames;
use claim_store::{ClaimStore, claims_start_again};
use command_words::{ServeManyAsk, ServeNodeAsk, ServeOptions};
use element_file::elements_are_exact;
use file_commands::{Refusal, Unheard, open_node_claims, say_start, say_stop};
use node_sessions::{NodeServed, serve_node};
use session_core::VerifierJobs;
use session_laws::{extracted_shows_elements, extracted_shows_outputs};
use session_pool::Served;
use session_verifier::{LogFaults, LogKeeper, SessionNote, order_notes, say_service, write_note};
use statement_file::NamedClaim;
use std::alloc::Global;
use std::slice::from_ref;
use std::sync::{Mutex, Wait};
use std::thread::Threads;
use zk_model::{MAX_SECTION_LENGTH, Span};
use zk_port::{Access, Disk, Door, PortFault, Shelf, Sink};

/// Where a node's broker listens, and the node's number.
#[derive(Drop)]
pub struct NodePlace<T> {
    pub broker: T,
    pub node: u32,
}

/// Who hears of the sessions of a node as they end, if it is followed.
#[derive(Drop)]
struct Followers<'a, E: Sink> {
    notices: &'a mut E,
    follow: bool,
}

impl<'a, E: Sink> Followers<'a, E> {
    /// Says the line of a session that has ended.
    fn say<L>(&mut self, alloc: Global, note: &SessionNote<L>) {
        if self.follow {
            if let Ok(line) = write_note(alloc, note) {
                let _ = self.notices.put(alloc, line.as_bytes());
            }
        }
    }
}

/// They are told under a lock, for which whoever has this handle may wait.
#[derive(Drop)]
struct LockedFollowers<'a, 'b, E: Sink, R> {
    rt: &'a R,
    followers: &'a Mutex<Followers<'b, E>>,
}

impl<'a, 'b, E: Sink, R: Wait> LogKeeper for LockedFollowers<'a, 'b, E, R> {
    fn keep<L>(&self, alloc: Global, note: &SessionNote<L>) {
        self.followers.lock(self.rt).say(alloc, note);
    }
}

/// How many of so many units these claims do not take.
fn unclaimed(total: u64, claims: &[Span]) -> u64 {
    let mut left = total;
    for claim in claims {
        left = left.saturating_sub(claim.end.saturating_sub(claim.start));
    }
    left
}

/// Leads the sessions about these jobs with the provers that call at the door, which listens, with units of blocks that are claimed in an open journal;
/// and closes it.
fn lead_as_node<R, E, D, B>(
    rt: &R,
    alloc: Global,
    notices: &mut E,
    jobs: &VerifierJobs<'_>,
    options: &ServeOptions<String>,
    place: &NodePlace<String>,
    claims: ClaimStore<B>,
    door: D,
) -> Served<SessionNote<D::Link>, D, B>
where
    R: Threads + Wait + Sync,
    E: Sink,
    D: Door,
    D::Link: Drop,
    B: Disk,
    requires total { claims.total ≡ jobs.now.first.task.file.params.total }
    ensures { LedByNode D.Link.state B.state options.now.sessions options.now.timeout (place_of place.now)
        jobs.now claims (D.state door) result.notes.items result.door_failed result.memory_failed
        result.disk (D.state result.door) }
{
    let followers = Mutex::new(Followers {
        notices,
        follow: options.follow,
    });
    let keeper = LockedFollowers {
        rt,
        followers: &followers,
    };
    let served = serve_node(
        rt,
        alloc,
        jobs,
        &keeper,
        &place.broker,
        options.timeout,
        place.node,
        claims,
        door,
        options.sessions,
    );
    let NodeServed {
        notes,
        door,
        claims,
        door_failed,
        memory_failed,
    } = served;
    let disk = claims.close();
    Served {
        notes,
        door,
        disk,
        door_failed,
        memory_failed,
    }
}

/// Opens the journal of the node's claims, listens, and leads the sessions about these jobs with the provers that call.
fn serve_as_node<R, E, D, B>(
    rt: &R,
    alloc: Global,
    notices: &mut E,
    jobs: &VerifierJobs<'_>,
    service: &Service<'_>,
    place: &NodePlace<String>,
    ports: Ports<B, D>,
) -> Result<Served<SessionNote<D::Link>, D, B>, Stopped<B, D>>
where
    R: Threads + Wait + Sync,
    E: Sink,
    D: Door,
    D::Link: Drop,
    B: Disk,
    requires disk { IsJournalDisk (B.state ports.journal) }
    requires few { TakeFewUnits jobs.now }
    ensures leads { IfOk result (λ served. LeadsAsNode D.Link.state B.state (service_of service.now)
        (place_of place.now) jobs.now served.notes.items served.door_failed served.memory_failed
        (change ports.journal served.disk) (change (D.state ports.door) (D.state served.door))) }
    ensures stop { IfErr result (λ stopped. StopsOpening
        (claims_journal (service_of service.now) (place_of place.now)) (service_of service.now) jobs.now
        (disk_change (B.state ports.journal) (B.state stopped.ports.journal))
        (change (D.state ports.door) (D.state stopped.ports.door)) stopped.refusal) }
{
    let Ports { journal, mut door } = ports;
    let options = &service.options;
    let file = jobs.job(0).file();
    let opened = open_node_claims(alloc, journal, &service.file, place.node, Access::Own, file);
    let claims = match opened {
        Ok(claims) => claims,
        Err((refusal, journal)) => {
            let ports = Ports { journal, door };
            return Err(Stopped { refusal, ports });
        }
    };
    let refusal = match door.listen(alloc, &service.address, options.timeout, options.sessions) {
        Ok(()) => {
            let left = unclaimed(file.total(), claims.claims());
            let units = most_units(jobs);
            say_start(alloc, notices, &door, options.follow, left, units);
            let served = lead_as_node(rt, alloc, notices, jobs, options, place, claims, door);
            return Ok(served);
        }
        Err(PortFault::Failed) => Refusal::DoorFailed,
        Err(PortFault::NoMemory) => Refusal::NoMemory,
    };
    let journal = claims.close();
    let ports = Ports { journal, door };
    Err(Stopped { refusal, ports })
}

/// Loads what is named, makes the jobs of its claims, and serves them as a node; or says why not.
fn serve_node_files<R, F, E, D, B>(
    rt: &R,
    alloc: Global,
    shelf: &mut F,
    notices: &mut E,
    service: &Service<'_>,
    place: &NodePlace<String>,
    ports: Ports<B, D>,
) -> Result<Served<SessionNote<D::Link>, D, B>, Stopped<B, D>>
where
    R: Threads + Wait + Sync,
    F: Shelf,
    E: Sink,
    D: Door,
    D::Link: Drop,
    B: Disk,
    requires disk { IsJournalDisk (B.state ports.journal) }
    requires limits { AreServeLimits (named_options service.now.options) }
    requires some { 1 ≤ length service.now.statements.now }
    requires most { length service.now.statements.now ≤ MAX_STATEMENTS }
    requires kind { AreOfOneKind service.now.statements.now }
    ensures leads { IfOk result (λ served. LeadsNodeFiles D.Link.state B.state (service_of service.now)
        (place_of place.now) served.notes.items served.door_failed served.memory_failed
        (F.state shelf.old).told (change ports.journal served.disk)
        (change (D.state ports.door) (D.state served.door))) }
    ensures stop { IfErr result (λ stopped. StopsService
        (claims_journal (service_of service.now) (place_of place.now)) (service_of service.now)
        (change (F.state shelf.old) (F.state shelf.new))
        (disk_change (B.state ports.journal) (B.state stopped.ports.journal))
        (change (D.state ports.door) (D.state stopped.ports.door)) stopped.refusal) }
    ensures kept { OnlyLoads (IsLoadedName (service_of service.now))
        (change (F.state shelf.old) (F.state shelf.new)) }
    ensures quiet { OnOk result (F.state shelf.new ≡ F.state shelf.old) }
{
    let files = match load_files(rt, alloc, shelf, service) {
        Ok(files) => files,
        Err(refusal) => return Err(Stopped { refusal, ports }),
    };
    let Ok(statements) = statements_of(alloc, &files.claims) else {
        let refusal = Refusal::NoMemory;
        return Err(Stopped { refusal, ports });
    };
    let jobs = match fit_jobs(alloc, &statements, &files.file, service.options.section) {
        Ok(jobs) => jobs,
        Err(refusal) => return Err(Stopped { refusal, ports }),
    };
    let [first, others @ ..] = jobs.as_slice() else {
        unreachable!();
    };
    let jobs = VerifierJobs::new(first, others);
    serve_as_node(rt, alloc, notices, &jobs, service, place, ports)
}

/// Serves sessions about the claims as a node, says what came of them and hands them back, in the order of their first units, or says why none is
/// served; with the status. How it goes is said to whoever hears it, where it is followed.
fn node_heard<R, F, D, B, O, E>(
    rt: &R,
    alloc: Global,
    shelf: &mut F,
    ports: Ports<B, D>,
    out: &mut O,
    notices: &mut E,
    service: &Service<'_>,
    place: &NodePlace<String>,
) -> Finish<B, D>
where
    R: Threads + Wait + Sync,
    F: Shelf,
    D: Door,
    D::Link: Drop,
    B: Disk,
    O: Sink,
    E: Sink,
    requires disk { IsJournalDisk (B.state ports.journal) }
    requires limits { AreServeLimits (named_options service.now.options) }
    requires some { 1 ≤ length service.now.statements.now }
    requires most { length service.now.statements.now ≤ MAX_STATEMENTS }
    requires kind { AreOfOneKind service.now.statements.now }
    requires unlogged { service.now.options.logs ≡ None }
    ensures serves { ServesNode D.Link.state B.state (service_of service.now) (place_of place.now) result.part
        (change ports.journal result.journal)
        (change (D.state ports.door) (D.state result.door))
        (effects result.status
        (change (F.state shelf.old) (F.state shelf.new)) (change (O.state out.old) (O.state out.new))) }
    ensures headline { EachNote result.part (λ note. note.outcome ≡ Accepted →
        ShowsClaim (F.state shelf.old).told (service_of service.now) note) }
    ensures once { OfNotes result.part (λ notes. GrantsClaimedOnce B.state (F.state shelf.old).told
        (service_of service.now) notes (change ports.journal result.journal)) }
{
    one_circuit();
    texts_are_exact();
    elements_are_exact();
    claims_start_again();
    extracted_shows_outputs();
    extracted_shows_elements();
    match serve_node_files(rt, alloc, shelf, notices, service, place, ports) {
        Ok(served) => {
            let Served {
                mut notes,
                door,
                disk,
                door_failed,
                memory_failed,
            } = served;
            order_notes(&mut notes);
            let faults = LogFaults::none();
            let status = say_service(
                alloc,
                shelf,
                out,
                &notes,
                None,
                faults,
                door_failed,
                memory_failed,
            );
            let journal = disk;
            let part = Part::Served(notes);
            Ports { journal, door }.end_with(Ending { status, part })
        }
        Err(Stopped { refusal, ports }) => ports.end(say_stop(alloc, out, refusal)),
    }
}

/// `serve-node ADDRESS BROKER FILE CIRCUIT OUTPUTS --node K --sessions N [--timeout S] [--follow]`: serves sessions about the claim that is asked
/// for, one after another, with units of the blocks that the broker leases to the node, or says why none is served; with the status. Where it is
/// followed, it says so as it goes.
pub fn run_serve_node<R, F, D, B, O, E>(
    rt: &R,
    alloc: Global,
    shelf: &mut F,
    ports: Ports<B, D>,
    out: &mut O,
    notices: &mut E,
    ask: ServeNodeAsk<String, Vec<bool>>,
) -> Finish<B, D>
where
    R: Threads + Wait + Sync,
    F: Shelf,
    D: Door,
    D::Link: Drop,
    B: Disk,
    O: Sink,
    E: Sink,
    requires disk { IsJournalDisk (B.state ports.journal) }
    requires limits { AreNodeLimits ask.node ask.sessions ask.timeout }
    ensures serves { ServesNode D.Link.state B.state (service_of_node (serve_node_of known_bits ask))
        (place_asked (serve_node_of known_bits ask)) result.part (change ports.journal result.journal)
        (change (D.state ports.door) (D.state result.door))
        (effects result.status
        (change (F.state shelf.old) (F.state shelf.new)) (change (O.state out.old) (O.state out.new))) }
    ensures headline { ShowsClaims (F.state shelf.old).told (serve_node (serve_node_of known_bits ask))
        result.part }
    ensures once { GrantsOnceIn B.state (F.state shelf.old).told (serve_node (serve_node_of known_bits ask))
        result.part (change ports.journal result.journal) }
    ensures quiet { ask.follow ≡ false → E.state notices.new ≡ E.state notices.old }
{
    let named = NamedClaim::new(ask.circuit, Vec::new(alloc), ask.outputs);
    let claim = ClaimNames::Boolean(named);
    let options = ServeOptions {
        sessions: ask.sessions,
        workers: 1,
        section: MAX_SECTION_LENGTH,
        timeout: ask.timeout,
        logs: None,
        follow: ask.follow,
    };
    let service = ServeManyAsk {
        address: ask.address,
        file: ask.file,
        statements: from_ref(&claim),
        options,
    };
    let place = NodePlace {
        broker: ask.broker,
        node: ask.node,
    };
    if ask.follow {
        node_heard(rt, alloc, shelf, ports, out, notices, &service, &place)
    } else {
        node_heard(rt, alloc, shelf, ports, out, &mut Unheard, &service, &place)
    }
}
