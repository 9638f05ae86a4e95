// What a run hands back of a broker.
ghost use Rattle.std.specs.Prelude.{◌≡◌, false};
ghost use Rattle.zk_port.specs.Changes.{change};
ghost use Rattle.command_words.specs.Commands.{broker_of};
ghost use Rattle.file_commands.specs.Effects.{effects};
ghost use Rattle.file_commands.specs.Journals.{IsJournalDisk, disk_change};
ghost use Rattle.zk_cli.specs.BrokeredParts.{BrokersPart, brokered_part};

use crate::finish::{Ending, Finish, Part, Ports};
use broker_command::{BrokerEnd, run_broker};
use broker_links::BrokerNote;
use command_words::BrokerAsk;
use lease_store::LeaseFault;
use std::alloc::Global;
use std::sync::Wait;
use std::thread::Threads;
use zk_port::{Disk, Door, Shelf, Sink};

/// The notes of the exchanges, if the door listened.
fn part_of<L>(notes: Option<Vec<BrokerNote<L, LeaseFault>>>) -> Part<L>
    ensures { result ≡ brokered_part notes }
{
    match notes {
        None => Part::Plain,
        Some(notes) => Part::Brokered(notes),
    }
}

/// `broker`: answers the wants of the nodes that call, and hands back what came of each.
pub fn run_brokering<R, F, D, B, O, E>(
    rt: &R,
    alloc: Global,
    shelf: &mut F,
    ports: Ports<B, D>,
    out: &mut O,
    notices: &mut E,
    ask: &BrokerAsk<String>,
) -> Finish<B, D>
where
    R: Threads + Wait + Sync,
    F: Shelf,
    D: Door,
    B: Disk,
    O: Sink,
    E: Sink,
    requires disk { IsJournalDisk (B.state ports.journal) }
    ensures brokers { BrokersPart D.Link.state B.state (broker_of ask.now) result.part
        (disk_change (B.state ports.journal) (B.state result.journal))
        (change (D.state ports.door) (D.state result.door))
        (effects result.status
        (change (F.state shelf.old) (F.state shelf.new)) (change (O.state out.old) (O.state out.new))) }
    ensures quiet { ask.now.follow ≡ false → E.state notices.new ≡ E.state notices.old }
{
    let Ports { journal, door } = ports;
    let end = run_broker(rt, alloc, shelf, journal, door, out, notices, ask);
    let BrokerEnd {
        status,
        disk,
        door,
        notes,
    } = end;
    let part = part_of(notes);
    let journal = disk;
    Ports { journal, door }.end_with(Ending { status, part })
}
