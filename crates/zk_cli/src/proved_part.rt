// What a run hands back of a session of a prover.
ghost use Rattle.std.specs.Prelude.{◌≡◌};
ghost use Rattle.zk_port.specs.Changes.{change};
ghost use Rattle.file_commands.specs.Effects.{effects};
ghost use Rattle.file_commands.specs.Journals.{IsJournalDisk, disk_change};
ghost use Rattle.zk_cli.specs.ProvedParts.{ProvesPart, proved_part};

use crate::finish::{Ending, Finish, Part, Ports};
use prove_command::{Proof, ProveEnd, run_prove};
use session_prover::ProverNote;
use std::alloc::Global;
use std::thread::Threads;
use zk_port::{Disk, Door, Shelf, Sink};

/// The note of a session, if one was held.
pub(crate) fn part_of<L>(note: Option<ProverNote<L>>) -> Part<L>
    ensures { result ≡ proved_part note }
{
    match note {
        None => Part::Plain,
        Some(note) => Part::Proved(note),
    }
}

/// `prove` and `prove-arith`: proves this to the verifier at its address, and hands back what came of the session.
pub fn run_proof<R, F, D, B, O>(
    rt: &R,
    alloc: Global,
    shelf: &mut F,
    ports: Ports<B, D>,
    out: &mut O,
    proof: &Proof,
) -> Finish<B, D>
where
    R: Threads + Sync,
    F: Shelf,
    D: Door + Drop,
    D::Link: Drop,
    B: Disk + Drop,
    O: Sink,
    requires disk { IsJournalDisk (B.state ports.journal) }
    ensures proves { ProvesPart D.Link.state proof.now result.part
        (disk_change (B.state ports.journal) (B.state result.journal))
        (change (D.state ports.door) (D.state result.door))
        (effects result.status
        (change (F.state shelf.old) (F.state shelf.new)) (change (O.state out.old) (O.state out.new))) }
{
    let Ports { journal, door } = ports;
    let end = run_prove(rt, alloc, shelf, journal, door, out, proof);
    let ProveEnd {
        status,
        journal,
        door,
        note,
    } = end;
    let part = part_of(note);
    Ports { journal, door }.end_with(Ending { status, part })
}
