// What is kept and said of the sessions that were served.
ghost use Rattle.std.specs.Prelude.{◌≡◌, ◌||◌};
ghost use Rattle.std.specs.Option.{option_map};
ghost use Rattle.zk_port.specs.Changes.{change};
ghost use Rattle.zk_port.specs.Shelves.{ShelfState};
ghost use Rattle.file_commands.specs.Effects.{effects};
ghost use Rattle.session_verifier.specs.NoteLines.{failures};
ghost use Rattle.session_verifier.specs.ServiceLogs.{HaveApartNames, SaysService, TriesLogs};

use crate::note::SessionNote;
use crate::note_lines::{Failures, served_status, write_served};
use crate::service_logs::{LogFaults, settle_logs};
use file_commands::say;
use std::alloc::Global;
use zk_port::{Shelf, Sink};

/// What failed beside the sessions, where this became of their logs.
fn failures_of(kept: LogFaults, door_failed: bool, memory_failed: bool) -> Failures
    ensures { result ≡ failures door_failed kept.failed (memory_failed || kept.lacked) }
{
    Failures {
        door: door_failed,
        shelf: kept.failed,
        memory: memory_failed || kept.lacked,
    }
}

/// Has the logs of these sessions stand, of which the calls so far became this, writes their lines, and answers the status; for the lines
/// no memory may be left.
pub fn say_service<F: Shelf, O: Sink, L>(
    alloc: Global,
    shelf: &mut F,
    out: &mut O,
    notes: &[SessionNote<L>],
    prefix: Option<&str>,
    before: LogFaults,
    door_failed: bool,
    memory_failed: bool,
) -> u8
    requires apart { HaveApartNames (option_map (λ p. p.now) prefix) notes.now }
    ensures { (first : ShelfState)
        → TriesLogs (option_map (λ p. p.now) prefix.entry) (change first (F.state shelf.old)) before.failed
        → SaysService (option_map (λ p. p.now) prefix.entry) notes.now door_failed memory_failed
        (effects result (change first (F.state shelf.new)) (change (O.state out.old) (O.state out.new))) }
{
    let kept = settle_logs(alloc, shelf, prefix, notes, before);
    let Ok(text) = write_served(alloc, notes, door_failed) else {
        return 7;
    };
    let failed = failures_of(kept, door_failed, memory_failed);
    say(alloc, out, text.as_bytes(), served_status(notes, failed))
}
