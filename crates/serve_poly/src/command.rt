// `serve-poly ADDRESS FILE TEXT --sessions N [--workers W] [--section G] [--timeout S] [--logs PREFIX] [--follow]`
ghost use Rattle.std.specs.Prelude.{◌≡◌, ◌≤◌, All, IfSome, false};
ghost use Rattle.std.specs.Option.{option_map};
ghost use Rattle.zk_port.specs.Changes.{change};
ghost use Rattle.session_verifier.specs.declared.note.VerifierOutcome.TheVariants.{Accepted};
ghost use Rattle.command_words.specs.Commands.{AreServeLimits, named_options, serve_poly_of};
ghost use Rattle.file_commands.specs.Effects.{effects};
ghost use Rattle.file_commands.specs.Journals.{IsJournalDisk, disk_change};
ghost use Rattle.serve_poly.specs.PolyServices.{GrantsPolyOnce, ServesPoly, ShowsConstraints};

use crate::serving::serve_files;
use command_words::ServePolyAsk;
use file_commands::{Unheard, say_stop};
use poly_text::texts_are_exact;
use session_pool::Served;
use session_service::{LedSessions, Unled};
use session_verifier::{SessionNote, order_notes, say_service};
use std::alloc::Global;
use std::sync::Wait;
use std::thread::Threads;
use zk_port::{Disk, Door, Shelf, Sink};

/// How the command ends: its status, the disk and the door that it was given, and what came of the sessions with the peers that called, in
/// order, exactly where the door listened.
#[derive(Drop)]
pub struct ServePolyEnd<B, D: Door> {
    pub status: u8,
    pub journal: B,
    pub door: D,
    pub notes: Option<Vec<SessionNote<D::Link>>>,
}

/// Serves sessions about the constraints, and says what came of them, or why none is served. How it goes is said to whoever hears it.
fn serve_heard<R, F, D, B, O, E>(
    rt: &R,
    alloc: Global,
    shelf: &mut F,
    journal: B,
    door: D,
    out: &mut O,
    notices: &mut E,
    ask: &ServePolyAsk<String>,
) -> ServePolyEnd<B, D>
where
    R: Threads + Wait + Sync,
    F: Shelf + Send,
    D: Door + Drop + Send,
    D::Link: Drop + Send,
    B: Disk + Drop + Send,
    O: Sink,
    E: Sink + Send,
    requires disk { IsJournalDisk (B.state journal) }
    requires limits { AreServeLimits (named_options ask.now.options) }
    ensures serves { ServesPoly D.Link.state (serve_poly_of ask.now) (option_map (λ notes. notes.items) result.notes)
        (disk_change (B.state journal) (B.state result.journal)) (change (D.state door) (D.state result.door))
        (effects result.status (change (F.state shelf.old) (F.state shelf.new)) (change (O.state out.old) (O.state out.new))) }
    ensures headline { IfSome result.notes (λ notes. All (λ note. note.outcome ≡ Accepted
        → ShowsConstraints (F.state shelf.old).told (serve_poly_of ask.now) note) notes.items) }
    ensures once { IfSome result.notes (λ notes. GrantsPolyOnce (F.state shelf.old).told (serve_poly_of ask.now)
        notes.items (disk_change (B.state journal) (B.state result.journal))) }
{
    texts_are_exact();
    match serve_files(rt, alloc, shelf, notices, ask, journal, door) {
        Ok(led) => {
            let LedSessions { served, faults } = led;
            let Served {
                mut notes,
                door,
                disk,
                door_failed,
                memory_failed,
            } = served;
            order_notes(&mut notes);
            let logs = ask.options.logs.as_deref();
            let status = say_service(
                alloc,
                shelf,
                out,
                &notes,
                logs,
                faults,
                door_failed,
                memory_failed,
            );
            ServePolyEnd {
                status,
                journal: disk,
                door,
                notes: Some(notes),
            }
        }
        Err(
            Unled {
                refusal,
                journal,
                door,
            },
        ) => {
            let status = say_stop(alloc, out, refusal);
            ServePolyEnd {
                status,
                journal,
                door,
                notes: None,
            }
        }
    }
}

/// `serve-poly ADDRESS FILE TEXT --sessions N [--workers W] [--section G] [--timeout S] [--logs PREFIX] [--follow]`: serves sessions about
/// the constraints of the text over the file's journal, keeps their logs, says what came of them and hands them back, in the order of their
/// first units, or says why none is served; with the status, the disk and the door. Where it is followed, it says so as it goes.
pub fn run_serve_poly<R, F, D, B, O, E>(
    rt: &R,
    alloc: Global,
    shelf: &mut F,
    journal: B,
    door: D,
    out: &mut O,
    notices: &mut E,
    ask: &ServePolyAsk<String>,
) -> ServePolyEnd<B, D>
where
    R: Threads + Wait + Sync,
    F: Shelf + Send,
    D: Door + Drop + Send,
    D::Link: Drop + Send,
    B: Disk + Drop + Send,
    O: Sink,
    E: Sink + Send,
    requires disk { IsJournalDisk (B.state journal) }
    requires limits { AreServeLimits (named_options ask.now.options) }
    ensures serves { ServesPoly D.Link.state (serve_poly_of ask.now) (option_map (λ notes. notes.items) result.notes)
        (disk_change (B.state journal) (B.state result.journal)) (change (D.state door) (D.state result.door))
        (effects result.status (change (F.state shelf.old) (F.state shelf.new)) (change (O.state out.old) (O.state out.new))) }
    ensures headline { IfSome result.notes (λ notes. All (λ note. note.outcome ≡ Accepted
        → ShowsConstraints (F.state shelf.old).told (serve_poly_of ask.now) note) notes.items) }
    ensures once { IfSome result.notes (λ notes. GrantsPolyOnce (F.state shelf.old).told (serve_poly_of ask.now)
        notes.items (disk_change (B.state journal) (B.state result.journal))) }
    ensures quiet { ask.now.options.follow ≡ false → E.state notices.new ≡ E.state notices.old }
{
    if ask.options.follow {
        serve_heard(rt, alloc, shelf, journal, door, out, notices, ask)
    } else {
        serve_heard(rt, alloc, shelf, journal, door, out, &mut Unheard, ask)
    }
}
