// What a run hands back of the commands about polynomial constraints.
ghost use Rattle.std.specs.Prelude.{◌≡◌, ◌≤◌, false};
ghost use Rattle.zk_model.specs.declared.limits.TheConstants.{MAX_SECTION_LENGTH};
ghost use Rattle.zk_port.specs.Changes.{change};
ghost use Rattle.command_words.specs.Commands.{AreServeLimits, named_options, prove_poly_of, rehearse_poly_of, serve_poly_of};
ghost use Rattle.command_words.specs.declared.asks.Ask.TheVariants.{ServePoly as serve_poly};
ghost use Rattle.file_commands.specs.Effects.{effects};
ghost use Rattle.file_commands.specs.Journals.{IsJournalDisk, disk_change};
ghost use Rattle.zk_cli.specs.PolyParts.{ProvesPolyPart, RehearsesPolyPart, ServesPolyPart, rehearsed_part, served_part};
ghost use Rattle.zk_cli.specs.ServedNotes.{GrantsOnceIn, ShowsClaims};

use crate::finish::{Ending, Finish, Part, Ports};
use crate::proved_part::part_of as part_of_note;
use claim_rehearsal::ClaimRehearsal;
use command_words::{ProvePolyAsk, RehearsePolyAsk, ServePolyAsk};
use prove_command::ProveEnd;
use prove_poly::run_prove_poly;
use rehearse_poly::{RehearsePolyEnd, run_rehearse_poly};
use serve_poly::{ServePolyEnd, run_serve_poly};
use session_verifier::SessionNote;
use std::alloc::Global;
use std::sync::Wait;
use std::thread::Threads;
use zk_port::{Disk, Door, Shelf, Sink};

/// The rehearsal, if there is one.
fn part_of_rehearsal<L>(rehearsal: Option<ClaimRehearsal>) -> Part<L>
    ensures { result ≡ rehearsed_part rehearsal }
{
    match rehearsal {
        None => Part::Plain,
        Some(rehearsal) => Part::RehearsedClaim(rehearsal),
    }
}

/// The notes of the sessions, if the door listened.
fn part_of_notes<L>(notes: Option<Vec<SessionNote<L>>>) -> Part<L>
    ensures { result ≡ served_part notes }
{
    match notes {
        None => Part::Plain,
        Some(notes) => Part::Served(notes),
    }
}

/// `rehearse-poly`: rehearses a session over constraints at values that meet them, and hands back what came of it.
pub fn run_poly_rehearsal<R: Threads + Sync, F: Shelf, O: Sink, L>(
    rt: &R,
    alloc: Global,
    shelf: &mut F,
    out: &mut O,
    ask: &RehearsePolyAsk<String>,
    seed: &[u8; 32],
) -> Ending<L>
    requires at_least_one { 1 ≤ ask.now.section }
    requires at_most { ask.now.section ≤ MAX_SECTION_LENGTH }
    ensures { RehearsesPolyPart (rehearse_poly_of ask.now) seed.now result.part
        (effects result.status (change (F.state shelf.old) (F.state shelf.new))
        (change (O.state out.old) (O.state out.new))) }
{
    let RehearsePolyEnd { status, rehearsal } = run_rehearse_poly(rt, alloc, shelf, out, ask, seed);
    let part = part_of_rehearsal(rehearsal);
    Ending { status, part }
}

/// `prove-poly`: proves to the verifier at its address that values meet constraints, and hands back what came of the session.
pub fn run_poly_proof<R, F, D, B, O>(
    rt: &R,
    alloc: Global,
    shelf: &mut F,
    ports: Ports<B, D>,
    out: &mut O,
    ask: &ProvePolyAsk<String>,
) -> Finish<B, D>
where
    R: Threads + Sync,
    F: Shelf,
    D: Door + Drop,
    D::Link: Drop,
    B: Disk + Drop,
    O: Sink,
    requires disk { IsJournalDisk (B.state ports.journal) }
    ensures proves { ProvesPolyPart D.Link.state (prove_poly_of ask.now) result.part
        (disk_change (B.state ports.journal) (B.state result.journal))
        (change (D.state ports.door) (D.state result.door))
        (effects result.status
        (change (F.state shelf.old) (F.state shelf.new)) (change (O.state out.old) (O.state out.new))) }
{
    let Ports { journal, door } = ports;
    let end = run_prove_poly(rt, alloc, shelf, journal, door, out, ask);
    let ProveEnd {
        status,
        journal,
        door,
        note,
    } = end;
    let part = part_of_note(note);
    Ports { journal, door }.end_with(Ending { status, part })
}

/// `serve-poly`: serves sessions about constraints, and hands back what came of each.
pub fn run_poly_service<R, F, D, B, O, E>(
    rt: &R,
    alloc: Global,
    shelf: &mut F,
    ports: Ports<B, D>,
    out: &mut O,
    notices: &mut E,
    ask: &ServePolyAsk<String>,
) -> Finish<B, D>
where
    R: Threads + Wait + Sync,
    F: Shelf + Send,
    D: Door + Drop + Send,
    D::Link: Drop + Send,
    B: Disk + Drop + Send,
    O: Sink,
    E: Sink + Send,
    requires disk { IsJournalDisk (B.state ports.journal) }
    requires limits { AreServeLimits (named_options ask.now.options) }
    ensures serves { ServesPolyPart D.Link.state (serve_poly_of ask.now) result.part
        (disk_change (B.state ports.journal) (B.state result.journal))
        (change (D.state ports.door) (D.state result.door))
        (effects result.status
        (change (F.state shelf.old) (F.state shelf.new)) (change (O.state out.old) (O.state out.new))) }
    ensures headline { ShowsClaims (F.state shelf.old).told (serve_poly (serve_poly_of ask.now)) result.part }
    ensures once { GrantsOnceIn B.state (F.state shelf.old).told (serve_poly (serve_poly_of ask.now))
        result.part (change ports.journal result.journal) }
    ensures quiet { ask.now.options.follow ≡ false → E.state notices.new ≡ E.state notices.old }
{
    let Ports { journal, door } = ports;
    let end = run_serve_poly(rt, alloc, shelf, journal, door, out, notices, ask);
    let ServePolyEnd {
        status,
        journal,
        door,
        notes,
    } = end;
    let part = part_of_notes(notes);
    Ports { journal, door }.end_with(Ending { status, part })
}
