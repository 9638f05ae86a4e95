// The top call.
ghost use Rattle.std.specs.Prelude.{◌≡◌, ◌⊎◌, None, Some, true, false};
ghost use Rattle.zk_port.specs.Changes.{change};
ghost use Rattle.command_words.specs.BitWords.{BitsAsk};
ghost use Rattle.command_words.specs.Commands.{IsWithinLimits, ask_of, bits_ask, known_bits};
ghost use Rattle.command_words.specs.Forms.{IsReadAs};
ghost use Rattle.command_words.specs.Words.{Ask, texts, asked};
ghost use Rattle.zk_cli.specs.Meets.{DoesGiven, GrantsOnceGiven, MeetsGiven, Promises, SaysUsage, ShowsGiven, follows};
ghost use Rattle.zk_cli.specs.Runs.{run_of};
ghost use Rattle.file_commands.specs.Journals.{IsJournalDisk, disk_change};

use crate::arith_rehearse_command::run_rehearse_arith;
use crate::brokered_part::run_brokering;
use crate::finish::{Finish, Ports};
use crate::generate_command::run_generate;
use crate::many_command::run_serve_many;
use crate::node_service::run_serve_node;
use crate::poly_part::{run_poly_proof, run_poly_rehearsal, run_poly_service};
use crate::proved_part::run_proof;
use crate::rehearse_command::run_rehearse;
use crate::serve_command::{run_serve, run_serve_arith};
use command_words::{Ask as Asks, BitsWord, Command, read_words};
use file_commands::{Refusal, read_given, run_deal, run_eval, run_migrate, say_memory, say_stop};
use node_command::run_node;
use proof_audit::{run_audit, run_audit_arith};
use prove_command::Proof;
use status_command::{StatusEnd, run_status};
use std::alloc::Global;
use std::sync::Wait;
use std::thread::Threads;
use zk_port::{Disk, Door, Shelf, Sink};

/// Does what a command asks for.
fn run_command<R, F, D, B, O, E>(
    rt: &R,
    alloc: Global,
    command: Command<Vec<bool>>,
    shelf: &mut F,
    ports: Ports<B, D>,
    seed: &[u8; 32],
    out: &mut O,
    notices: &mut E,
) -> Finish<B, D>
where
    R: Threads + Wait + Sync,
    F: Shelf + Send,
    D: Door + Drop + Send,
    D::Link: Drop + Send,
    B: Disk + Drop + Send,
    O: Sink,
    E: Sink + Send,
    requires disk { IsJournalDisk (B.state ports.journal) }
    requires limits { IsWithinLimits command }
    ensures promises { Promises (ask_of known_bits command) seed.now
        (disk_change (B.state ports.journal) (B.state result.journal)) (run_of F.state D.state D.Link.state B.state
        result.status result.part (change shelf.old shelf.new) (change (O.state out.old) (O.state out.new))
        (change ports.journal result.journal) (change ports.door result.door)) }
    ensures quiet { follows (ask_of known_bits command) ≡ false
        → E.state notices.new ≡ E.state notices.old }
{
    match command {
        Asks::Deal(ask) => ports.end(run_deal(alloc, shelf, out, &ask.name, &ask.params, seed)),
        Asks::Eval(ask) => ports.end(run_eval(alloc, shelf, out, &ask.circuit, &ask.bits)),
        Asks::Rehearse(ask) => ports.end_with(run_rehearse(rt, alloc, shelf, out, &ask, seed)),
        Asks::Generate(ask) => ports.end_with(run_generate(rt, alloc, shelf, out, &ask, seed)),
        Asks::RehearseArith(ask) => {
            ports.end_with(run_rehearse_arith(rt, alloc, shelf, out, &ask, seed))
        }
        Asks::RehearsePoly(ask) => {
            ports.end_with(run_poly_rehearsal(rt, alloc, shelf, out, &ask, seed))
        }
        Asks::Serve(ask) => run_serve(rt, alloc, shelf, ports, out, notices, ask),
        Asks::ServeMany(ask) => run_serve_many(rt, alloc, shelf, ports, out, notices, ask),
        Asks::ServeArith(ask) => run_serve_arith(rt, alloc, shelf, ports, out, notices, ask),
        Asks::ServePoly(ask) => run_poly_service(rt, alloc, shelf, ports, out, notices, &ask),
        Asks::Prove(ask) => run_proof(rt, alloc, shelf, ports, out, &Proof::by_bits(ask)),
        Asks::ProveArith(ask) => run_proof(rt, alloc, shelf, ports, out, &Proof::by_elements(ask)),
        Asks::ProvePoly(ask) => run_poly_proof(rt, alloc, shelf, ports, out, &ask),
        Asks::Audit(ask) => ports.end(run_audit(rt, alloc, shelf, out, ask)),
        Asks::AuditArith(ask) => ports.end(run_audit_arith(rt, alloc, shelf, out, ask)),
        Asks::Status(ask) => {
            let Ports { journal, door } = ports;
            let circuit = ask.circuit.as_deref();
            let StatusEnd { status, journal } = run_status(
                alloc, shelf, journal, out, &ask.file, circuit, ask.node,
            );
            Ports { journal, door }.end(status)
        }
        Asks::Node(ask) => ports.end(run_node(alloc, shelf, out, &ask.file, ask.node)),
        Asks::Broker(ask) => run_brokering(rt, alloc, shelf, ports, out, notices, &ask),
        Asks::ServeNode(ask) => run_serve_node(rt, alloc, shelf, ports, out, notices, ask),
        Asks::Migrate(ask) => {
            let Ports { mut journal, door } = ports;
            let status = run_migrate(alloc, shelf, &mut journal, out, ask.side, &ask.file);
            Ports { journal, door }.end(status)
        }
    }
}

/// Does what a command asks for, once the files that give bits are read; or says why they give none.
fn run_words<R, F, D, B, O, E>(
    rt: &R,
    alloc: Global,
    command: Command<BitsWord>,
    shelf: &mut F,
    ports: Ports<B, D>,
    seed: &[u8; 32],
    out: &mut O,
    notices: &mut E,
) -> Finish<B, D>
where
    R: Threads + Wait + Sync,
    F: Shelf + Send,
    D: Door + Drop + Send,
    D::Link: Drop + Send,
    B: Disk + Drop + Send,
    O: Sink,
    E: Sink + Send,
    requires disk { IsJournalDisk (B.state ports.journal) }
    requires limits { IsWithinLimits command }
    ensures does { DoesGiven (ask_of bits_ask command) seed.now
        (disk_change (B.state ports.journal) (B.state result.journal)) (run_of F.state D.state D.Link.state B.state
        result.status result.part (change shelf.old shelf.new) (change (O.state out.old) (O.state out.new))
        (change ports.journal result.journal) (change ports.door result.door)) }
    ensures quiet { follows (ask_of bits_ask command) ≡ false → E.state notices.new ≡ E.state notices.old }
{
    match read_given(alloc, shelf, command) {
        Ok(known) => run_command(rt, alloc, known, shelf, ports, seed, out, notices),
        Err(stop) => ports.end(say_stop(alloc, out, stop)),
    }
}

/// Does what the words after the program's name ask for, over these files, this disk, this door and this
/// output, and hands back the status, the disk, the door and what was made. `deal` and `rehearse` use the seed. With `--follow` a service says
/// on the notices how it goes; else nothing is said there. A word of bits `@NAME` is read from that file first.
///
/// Words of no command end with 2, or with 7 where memory is missing. `rehearse CIRCUIT BITS [--section G]
/// [--extended] [--public BITS]` ends with 0 where it is accepted; 3 where the file, or the bits for it, are refused; 4
/// where a load of the file failed, or the output before a 0; 7 where memory is missing; 9 where the session would take
/// more than 4,096 units; and `rehearse --gates N --number S [--section G] [--extended]` with 0, 4, 7 and 9 in the same
/// cases. `rehearse-arith CIRCUIT VALUES [--section G] [--extended]` ends so too, with 4 where a load of either file failed, and with 1 where
/// an assertion is not met. `rehearse-poly TEXT VALUES [--section G] [--extended]` ends with 0 where it is accepted; 1 where a constraint is
/// not met; 3 where a file is refused; 4 where a load of either file failed, or the output; and with 7 and 9. `eval CIRCUIT BITS` ends with 0 where it wrote the outputs, and with 3, 4 and 7 in the same cases.
/// `deal NAME --units N [--trees T --height H --base K]` ends with 0 where all is stored and said, 4 where a store or
/// the output failed, and 7. `serve ADDRESS FILE CIRCUIT OUTPUTS --sessions N [--workers W] [--section G] [--timeout S] [--logs PREFIX]
/// [--follow] [--public BITS]` ends with 0 where each session is accepted, or no peer called; 1 where one is not; 3 where a file or
/// the journal is refused, or the outputs for it; 4 where a load, the door, a link, a log or the output failed; 5 where
/// the journal failed; 6 where units are missing; and with 7 and 9; and so does `serve-many ADDRESS FILE STATEMENTS --sessions N
/// [--workers W] [--section G] [--timeout S] [--logs PREFIX] [--follow]`, also with 3 where the file of statements is refused, and
/// `serve-arith ADDRESS FILE CIRCUIT OUTPUTS --sessions N [--workers W] [--section G] [--timeout S] [--logs PREFIX] [--follow]`, with 3 where
/// the file of the outputs is. `serve-poly ADDRESS FILE TEXT --sessions N [--workers W] [--section G] [--timeout S] [--logs PREFIX]
/// [--follow]` ends so too, with 3 where the file of the constraints is refused. `prove ADDRESS FILE CIRCUIT BITS OUTPUTS
/// [--timeout S] [--public BITS]` ends with 0 where it is accepted; 1 where it is rejected, or the circuit gives other outputs; 3 where
/// a file or the journal is refused, or the bits or outputs for it; 4 where a load, the door, the link or the output
/// failed; 5 where the journal failed or is full; 8 where the peer broke the protocol; and with 7; and so does `prove-arith ADDRESS FILE
/// CIRCUIT VALUES OUTPUTS [--timeout S]`, also with 1 where an assertion is not met, and with 3 where a file of elements is refused.
/// `prove-poly ADDRESS FILE TEXT VALUES [--timeout S]` ends so too, with 1 where a constraint is not met, and with 3 where the file of the
/// constraints or that of the values is refused.
/// `audit CIRCUIT OUTPUTS PROVERFILE VERIFIERFILE LOG [--public BITS]` ends with 0 where inputs are found; 1 where something else
/// is; 3 where a file is refused, the outputs for it, both files or the log; 4 where a load or the output failed; and with 7; and so does
/// `audit-arith CIRCUIT OUTPUTS PROVERFILE VERIFIERFILE LOG`, also with 3 where the file of the outputs is refused.
/// `migrate SIDE FILE` ends with 0 where the journal is migrated, now or before; 3 where the file or the journal is refused; 4
/// where a load or the output failed; 5 where the journal failed; and with 7. `status FILE [CIRCUIT] [--node K]` ends with 0 where it is said;
/// 3 where a file, the circuit or the journal is refused; 4 where a load or the output failed; 5 where the journal failed; and with 7.
/// `node FILE K` ends with 0 where the node's journal is stored and said; 3 where the file is refused; 4 where a load, the store or the output
/// failed; and with 7. `broker ADDRESS FILE --asks N [--timeout S] [--follow]` ends with 0 where each want got a block, or no node called; 1
/// where one sent no want; 3 where the file or the journal is refused; 4 where a load, the door, a link or the output failed; 5 where the
/// journal failed; 6 where units are missing; and with 7. `serve-node ADDRESS BROKER FILE CIRCUIT OUTPUTS --node K --sessions N [--timeout S]
/// [--follow]` ends as `serve`, but for 6; with 1 also where no block came that had a session's units, and with 4 where the broker was not called
/// or its link failed.
pub fn run_zk<R, F, D, B, O, E>(
    rt: &R,
    alloc: Global,
    words: &[String],
    shelf: &mut F,
    journal: B,
    door: D,
    seed: &[u8; 32],
    out: &mut O,
    notices: &mut E,
) -> Finish<B, D>
where
    R: Threads + Wait + Sync,
    F: Shelf + Send,
    D: Door + Drop + Send,
    D::Link: Drop + Send,
    B: Disk + Drop + Send,
    O: Sink,
    E: Sink + Send,

    // The disk is one on which a journal may be opened, or migrated.
    requires disk { IsJournalDisk (B.state journal) }

    // Words of no command; some may be read as what valid words ask for.
    ensures usage { asked (texts words.now) ≡ None → SaysUsage (run_of F.state D.state D.Link.state B.state
        result.status result.part (change shelf.old shelf.new) (change (O.state out.old) (O.state out.new))
        (change journal result.journal) (change door result.door))
        ⊎ ((ask : Ask BitsAsk) × IsReadAs (texts words.now) ask × DoesGiven ask seed.now
        (disk_change (B.state journal) (B.state result.journal)) (run_of F.state D.state D.Link.state B.state
        result.status result.part (change shelf.old shelf.new) (change (O.state out.old) (O.state out.new))
        (change journal result.journal) (change door result.door))) }
    ensures usage_2 { result.status ≡ 2 → asked (texts words.now) ≡ None }

    // Words of a command: with the bits that they and the files that they name give, its record holds of this run; or such a
    // file gives none, and that is said.
    ensures meets { (ask : Ask BitsAsk) → asked (texts words.now) ≡ Some ask → MeetsGiven ask seed.now
        (disk_change (B.state journal) (B.state result.journal)) (run_of F.state D.state D.Link.state B.state
        result.status result.part (change shelf.old shelf.new) (change (O.state out.old) (O.state out.new))
        (change journal result.journal) (change door result.door)) }

    // The headline: what an accepted session shows of the claim that it is about, which words or a file of statements name. For
    // every prover's file that is dealt with the verifier's, the private inputs that this file and its frames fix make the circuit
    // give the claimed outputs, bits beside the public ones, or elements, which meet an arithmetic circuit's assertions; or the
    // challenge is a root of a named nonzero polynomial of at most the number of products in degree, or the key is one of a named
    // nonzero polynomial of degree two at most. Of constraints: the values that this file and its frames fix meet all of them; or the
    // challenge is a root of the errors, which are not all zero; or the key is one of a named nonzero polynomial of their degree at
    // most.
    ensures headline { (ask : Ask BitsAsk) → asked (texts words.now) ≡ Some ask
        → ShowsGiven (F.state shelf.old).told ask result.part }

    // Its second part: over this run, with the journal that the disk had, no unit is granted that an earlier run or
    // another session was granted, whatever crashes leave: by a service with a ceiling, by a node with claims.
    ensures once { (ask : Ask BitsAsk) → asked (texts words.now) ≡ Some ask
        → GrantsOnceGiven B.state (F.state shelf.old).told ask result.part
        (change journal result.journal) }

    // Nothing is said beside the output, but by a service that is followed.
    ensures quiet { (E.state notices.new ≡ E.state notices.old)
        ⊎ ((ask : Ask BitsAsk) × IsReadAs (texts words.now) ask × (follows ask ≡ true)) }
{
    let ports = Ports { journal, door };
    match read_words(alloc, words) {
        Ok(Some(command)) => run_words(rt, alloc, command, shelf, ports, seed, out, notices),
        Ok(None) => ports.end(say_stop(alloc, out, Refusal::Usage)),
        Err(_) => ports.end(say_memory(alloc, out)),
    }
}
