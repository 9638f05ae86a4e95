// `broker ADDRESS FILE --asks N [--timeout S] [--follow]`
ghost use Rattle.std.specs.Prelude.{◌≡◌, false, IfOk, IfErr, OnOk, string_bytes};
ghost use Rattle.std.specs.Option.{option_map};
ghost use Rattle.zk_port.specs.Changes.{change};
ghost use Rattle.command_words.specs.Commands.{broker_of};
ghost use Rattle.file_commands.specs.Effects.{IsName, OnlyLoads, effects};
ghost use Rattle.file_commands.specs.Journals.{IsJournalDisk, disk_change};
ghost use Rattle.broker_command.specs.BrokerRuns.{AnswersFile, AnswersWants, BrokerStop, OpeningStop, ServesAsBroker};

use crate::note_lines::{say_brokered, write_note};
use broker_links::BrokerNote;
use broker_service::{Brokered, Teller, answer_all};
use command_words::BrokerAsk;
use dealer_files::VerifierFile;
use file_commands::{Refusal, Unheard, load_verifier, open_ceilings, say_broker_start, say_stop};
use lease_store::{LeaseFault, ceilings_start_again};
use std::alloc::Global;
use std::sync::Wait;
use std::thread::Threads;
use zk_port::{Access, Disk, Door, PortFault, Shelf, Sink};

/// How a broker ends: the status that the program ends with, the disk and the door that it was given, and a note of each exchange with a
/// node that called, in order: exactly where the door listened.
#[derive(Drop)]
pub struct BrokerEnd<B, D: Door> {
    pub status: u8,
    pub disk: B,
    pub door: D,
    pub notes: Option<Vec<BrokerNote<D::Link, LeaseFault>>>,
}

/// Why no want is answered, with the disk and the door as they are then.
#[derive(Drop)]
struct Stopped<B, D> {
    refusal: Refusal,
    disk: B,
    door: D,
}

/// Says the line of each exchange once it ended, where the broker is followed.
#[derive(Drop)]
struct LineTeller<'a, E: Sink> {
    notices: &'a mut E,
    follow: bool,
}

impl<'a, E: Sink> Teller for LineTeller<'a, E> {
    fn tell<L>(&mut self, alloc: Global, note: &BrokerNote<L, LeaseFault>) {
        if self.follow {
            if let Ok(line) = write_note(alloc, &note.outcome) {
                let _ = self.notices.put(alloc, line.as_bytes());
            }
        }
    }
}

/// Opens the file's journal, listens, and answers the wants of the nodes that call.
fn answer_over<R, D, B, E>(
    rt: &R,
    alloc: Global,
    file: &VerifierFile,
    notices: &mut E,
    ask: &BrokerAsk<String>,
    disk: B,
    mut door: D,
) -> Result<Brokered<D::Link, D, B>, Stopped<B, D>>
where
    R: Threads + Wait + Sync,
    D: Door,
    B: Disk,
    E: Sink,
    requires disk { IsJournalDisk (B.state disk) }
    ensures answers { IfOk result (λ left. AnswersWants D.Link.state B.state (broker_of ask.now) file.now
        left.notes.items left.door_failed left.memory_failed (disk_change (B.state disk) (B.state left.disk))
        (change (D.state door) (D.state left.door))) }
    ensures stop { IfErr result (λ stopped. OpeningStop (broker_of ask.now) file.now
        (disk_change (B.state disk) (B.state stopped.disk))
        (change (D.state door) (D.state stopped.door)) stopped.refusal) }
{
    let opened = open_ceilings(alloc, disk, &ask.file, Access::Own, file, 1);
    let (parts, passes) = match opened {
        Ok(opened) => opened,
        Err((refusal, disk)) => {
            return Err(Stopped {
                refusal,
                disk,
                door,
            });
        }
    };
    let refusal = match door.listen(alloc, &ask.address, ask.timeout, ask.asks) {
        Ok(()) => {
            let id = file.id();
            let left = file.total().saturating_sub(parts.base());
            say_broker_start(alloc, notices, &door, ask.follow, left);
            let follow = ask.follow;
            let mut teller = LineTeller { notices, follow };
            let left = answer_all(rt, alloc, parts, passes, door, ask.asks, &id, &mut teller);
            return Ok(left);
        }
        Err(PortFault::Failed) => Refusal::DoorFailed,
        Err(PortFault::NoMemory) => Refusal::NoMemory,
    };
    let disk = parts.into_disk();
    Err(Stopped {
        refusal,
        disk,
        door,
    })
}

/// Loads the verifier's file, and answers the wants of the nodes that call; or says why not.
fn answer_wants<R, F, D, B, E>(
    rt: &R,
    alloc: Global,
    shelf: &mut F,
    notices: &mut E,
    ask: &BrokerAsk<String>,
    disk: B,
    door: D,
) -> Result<Brokered<D::Link, D, B>, Stopped<B, D>>
where
    R: Threads + Wait + Sync,
    F: Shelf,
    D: Door,
    B: Disk,
    E: Sink,
    requires disk { IsJournalDisk (B.state disk) }
    ensures answers { IfOk result (λ left. AnswersFile D.Link.state B.state (broker_of ask.now)
        left.notes.items left.door_failed left.memory_failed (F.state shelf.old).told
        (disk_change (B.state disk) (B.state left.disk)) (change (D.state door) (D.state left.door))) }
    ensures stop { IfErr result (λ stopped. BrokerStop (broker_of ask.now)
        (change (F.state shelf.old) (F.state shelf.new))
        (disk_change (B.state disk) (B.state stopped.disk))
        (change (D.state door) (D.state stopped.door)) stopped.refusal) }
    ensures kept { OnlyLoads (IsName (string_bytes ask.now.file))
        (change (F.state shelf.old) (F.state shelf.new)) }
    ensures quiet { OnOk result (F.state shelf.new ≡ F.state shelf.old) }
{
    match load_verifier(alloc, shelf, &ask.file) {
        Ok(file) => answer_over(rt, alloc, &file, notices, ask, disk, door),
        Err(refusal) => Err(Stopped {
            refusal,
            disk,
            door,
        }),
    }
}

/// Answers the wants, says what came of each and hands it back, or says why none is answered. How it goes is said to whoever hears it, where it
/// is followed.
fn broker_heard<R, F, D, B, O, E>(
    rt: &R,
    alloc: Global,
    shelf: &mut F,
    journal: B,
    door: D,
    out: &mut O,
    notices: &mut E,
    ask: &BrokerAsk<String>,
) -> BrokerEnd<B, D>
where
    R: Threads + Wait + Sync,
    F: Shelf,
    D: Door,
    B: Disk,
    O: Sink,
    E: Sink,
    requires disk { IsJournalDisk (B.state journal) }
    ensures { ServesAsBroker D.Link.state B.state (broker_of ask.now)
        (option_map (λ notes. notes.items) result.notes)
        (disk_change (B.state journal) (B.state result.disk))
        (change (D.state door) (D.state result.door)) (effects result.status
        (change (F.state shelf.old) (F.state shelf.new)) (change (O.state out.old) (O.state out.new))) }
{
    ceilings_start_again();
    match answer_wants(rt, alloc, shelf, notices, ask, journal, door) {
        Ok(left) => {
            let Brokered {
                notes,
                door,
                disk,
                door_failed,
                memory_failed,
            } = left;
            let status = say_brokered(alloc, out, &notes, door_failed, memory_failed);
            BrokerEnd {
                status,
                disk,
                door,
                notes: Some(notes),
            }
        }
        Err(
            Stopped {
                refusal,
                disk,
                door,
            },
        ) => {
            let status = say_stop(alloc, out, refusal);
            BrokerEnd {
                status,
                disk,
                door,
                notes: None,
            }
        }
    }
}

/// `broker ADDRESS FILE --asks N [--timeout S] [--follow]`: answers one want of each of so many nodes that call at the address, by blocks of the
/// units of the verifier's file of this name, says what came of each exchange and hands it back, in the order of the links; or says why none is
/// answered. A node that is silent for so many seconds is given up. Where it is followed, the broker says so as it goes. The call may wait.
///
/// The status is that of a stop: 3 where the file or its journal is refused, 4 where the shelf or the door failed, 5 the journal, 7 where memory
/// was missing. Once links are taken, it is the first that applies of 7, 5, 6 (no units were left for a want), 4 (the door, a link or the sink
/// failed), 1 (no want came on a link) and 0.
pub fn run_broker<R, F, D, B, O, E>(
    rt: &R,
    alloc: Global,
    shelf: &mut F,
    journal: B,
    door: D,
    out: &mut O,
    notices: &mut E,
    ask: &BrokerAsk<String>,
) -> BrokerEnd<B, D>
where
    R: Threads + Wait + Sync,
    F: Shelf,
    D: Door,
    B: Disk,
    O: Sink,
    E: Sink,
    requires disk { IsJournalDisk (B.state journal) }
    ensures serves { ServesAsBroker D.Link.state B.state (broker_of ask.now)
        (option_map (λ notes. notes.items) result.notes)
        (disk_change (B.state journal) (B.state result.disk))
        (change (D.state door) (D.state result.door)) (effects result.status
        (change (F.state shelf.old) (F.state shelf.new)) (change (O.state out.old) (O.state out.new))) }
    ensures quiet { ask.now.follow ≡ false → E.state notices.new ≡ E.state notices.old }
{
    if ask.follow {
        broker_heard(rt, alloc, shelf, journal, door, out, notices, ask)
    } else {
        broker_heard(rt, alloc, shelf, journal, door, out, &mut Unheard, ask)
    }
}
