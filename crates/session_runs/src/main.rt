//! Sessions of either end over links in memory, with peers whose bytes are stated, and runs of the program over objects in memory
//! whose refused calls are stated. Each line of standard input is a scenario: whose session it is, and words `name=value`. The line is
//! written, and after it a line for each session or run.
//!
//! `stdin` has the scenarios and `stdout` what they must write, both by `vectors/session_runs.py`; `data` has the circuits.
//!
//! | Line | What it asks for |
//! |---|---|
//! | `verifier`, `prover` | sessions of this end, whose peer is honest but for what the words say |
//! | `both` | the same of the one end, and then of the other |
//! | `rehearsal` | a rehearsal, over files of its own |
//! | `audit` | audits of the log of a rehearsal, whose bytes are as the words of the peer's bytes say |
//! | `service` | runs of `serve`, with peers at the door one after the other |
//! | `proof` | runs of `prove`, whose door connects to one peer |
//! | `run` | a run of the program of any words, with nobody at the door but who is stated |
//!
//! A line `zk WORDS` is a command line, its words apart by single spaces, that is run over the files and journals of the folder in which
//! the program runs, with nobody at the door. The line is written, then what the command writes, and the status that it ends with.
//!
//! The honest peer's bytes are those of a session that both ends hold with each other. The seed of all files is 32 bytes 7.
//!
//! | Word | What it says | Else |
//! |---|---|---|
//! | `circuit=NAME` | the circuit, of whose text a hello has the digest | `and.txt` |
//! | `bits=BITS` | the prover's bits: these over and over | `1` |
//! | `public=N` | how many of the first bits are public | 0 |
//! | `before=N` | a statement with so many public bits that a verifier offers before that of the scenario | none |
//! | `outputs=BITS` | the claimed outputs | those of the bits |
//! | `section=G` | how many products a section has | 2^20 |
//! | `files=T,H,K` | extended files of T trees of height H and base K | direct ones |
//! | `units=N` | how many units the files have | 1 |
//! | `start=U` | the first unit that is leased | 0 |
//! | `refuse=FAULT` | the fault by which a lease or a claim is refused, with its numbers after commas | none |
//! | `keep=N` | so many of the honest peer's bytes are sent | all |
//! | `more=HEX` | bytes that the peer sends after them | none |
//! | `set=PLACE:BYTE` | one byte that is another | none |
//! | `pieces=N` | how many bytes come at most in one receive, up to 4,096 | 4,096 |
//!
//! One word may have a session for each number of a range, from A up to B without B: `cut=A..B` has the peer end after so many
//! bytes, `change=A..B:MASK` changes its byte at this place in the bits of the mask, `fail=A..B` fails the call of the link of
//! this number, counted from 1, and `lack=A..B` has it find no memory.
//!
//! What a run of the program is given; `x.prover` and `x.verifier` are the dealt files, the circuit stands under its name, and the disk
//! has the journal of one of the files, of which it tells nothing: the prover's where the words begin with `prove`, `prove-arith`, `prove-poly` or
//! `migrate,prover`, one of the same kind where they have `--node`, else the verifier's. Behind a journal of one area it has room for one of
//! two.
//!
//! | Word | What it says | Else |
//! |---|---|---|
//! | `words=WORD,WORD..` | its words; `BITS` stands for the private bits of the circuit's inputs | of a service and of a proof those of the scenario |
//! | `tail=TEXT` | text behind the circuit's, in which `_` is a space | none |
//! | `size=N` | the size up to which line feeds follow the circuit's text | its own |
//! | `versions=A,B` | the versions of the prover's dealt file and of the verifier's; their digests fit | `1,1` |
//! | `dealt-size=N` | how many bytes both dealt files have | their own |
//! | `damage=PLACE:BYTE+..` | bytes of both dealt files that are others, where they have such a place; their digests stay | none |
//! | `areas=AREAS` | the journal has `one` area, or `two`, or it was `moved`: two areas behind a journal of one that was migrated | `two` |
//! | `slots=N` | how many slots an area has | those of a new one |
//! | `heads=A,B` | the generations in the heads of the first area and the second, 0 in one that is closed | `1,0` |
//! | `ceilings=N` | the ceilings up to this one stand in the verifier's journal | none |
//! | `claims=A..B+C..D..` | these claims stand in the prover's journal, in this order, whether they may or not | none |
//! | `journal-size=N` | how many bytes the journal has | its own |
//! | `journal-set=PLACE:BYTE` | one byte of the journal that is another | none |
//! | `shelf-fails=N`, `sink-fails=N`, `door-fails=N`, `disk-fails=N` | the number of the call that fails, counted from 1 | none |
//! | `shelf-lacks=N`, `sink-lacks=N`, `door-lacks=N` | the number of the call that finds no memory, counted from 1 | none |
//! | `statements=TEXT` | the text of the file `statements`, in which `+` is a space, and `/` the end of a line; a service is then that of `serve-many` | empty |
//! | `values=TEXT`, `claimed=TEXT` | the texts of the files `values` and `claimed`, of elements, with `+` and `/` likewise | empty |
//! | `log=HEX` | the bytes of the file `log` | none |
//! | `crash=LEFT` | what a crash after the run leaves of each write since the last sync: `old`, `new`, or a byte all over it; the run is then made again over that disk | no crash |
//! | `show=NAME,NAME..` | the files of which the line says how many bytes stand there, and SHA-256 of them, or with `NAME:N` of the first N; `disk` for the disk | none |
//!
//! Ceilings and claims stand in the area that counts. The other, where its head is open, says that all units are spent, and so does the
//! journal of one area behind which one was moved.
//!
//! What a service is asked for, and who calls. Each peer is honest over the units after those of the peer before, the first from
//! `start` on; the words of the peer's bytes and of its link are about one of them:
//!
//! | Word | What it says | Else |
//! |---|---|---|
//! | `sessions=N`, `workers=W`, `logs=PREFIX` | the values of these options | 1, none, none |
//! | `follow=1` | the service is followed | it is not |
//! | `node=K` | the service is that of `serve-node`, of this node, in sections of 2^20 | it is not |
//! | `brokers=HEX,HEX..` | what the brokers send to which a node connects, one after another, `-` for nothing | none |
//! | `peers=N` | how many peers call | 1 |
//! | `peer=N` | the number of the peer that the words are about, counted from 0; brokers count behind those who call | 0 |
//!
//! The peer of a proof is an honest verifier that grants units from `start` on, but for what the words of its bytes and of its link say.
//! The peers of a run of any words, who call or, in a proof, are called, are stated: `calls=HEX,HEX..` has what each sends, `-` for nothing, and
//! `brokers` likewise, and the words of a peer's bytes and of its link are about one of them.
//!
//! A line of a run has its number, where there is a range; the status; what is written, and what is said to who follows it; what is handed back, with the outcome, the units
//! and the log of each session, or the outcome and the log of each want; and the files that are shown. Behind a session of a node stands each
//! try to get units: the reply, of a Block its node, number, first unit and count, of an Out its node, number and place, or how it ended; how
//! many bytes each side sent in a row; and eight bytes of SHA-256 of them.
//!
//! A line of a rehearsal has the verdict, the units that it took, and its log; that of an audit what is found, or why nothing is.
//!
//! A line of a session has its number, where there is a range; how it ended; where a verifier offers two statements, the number of the
//! one that was taken, counted from 0; what was asked of who has the units (how many, and
//! at the prover from which one on); which ones were had; how many bytes each side sent in a row in the log, `p` the prover and
//! `v` the verifier; how many bytes these are, and SHA-256 of them, one after the other; how many sends and receives the link had,
//! and how many of its calls failed. Of a whole log that is the digest that `docs/PROTOCOL.md` publishes.
#![tactic(auto)]

mod audits;
mod cases;
mod ends;
mod given;
mod journals;
mod piece_link;
mod program_ends;
mod runs;
mod say;
mod scenario;
mod scene;
mod sessions;
mod units;

use anyhow::Result;
use memory_ports::{FailAt, MemoryDoor, NoFault, ScriptedLink};
use port_os::{FileDisk, FileShelf, NoticeSink, OutputSink};
use scenario::{Scenario, read_scenario};
use sessions::scenario_lines;
use std::alloc::Global;
use std::rt::Files;
use std::sync::Wait;
use std::thread::Threads;
use zk_cli::run_zk;
use zk_model::FILE_LIMIT;
use zk_port::Shelf;

/// The words of a command line, apart by single spaces.
fn words_between_spaces(alloc: Global, line: &str) -> Result<Vec<String>> {
    let mut words = Vec::new(alloc);
    for word in line.split(' ') {
        words.push(String::from_str(alloc, word)?)?;
    }
    Ok(words)
}

/// The lines of one line's scenario.
fn lines_of<R>(rt: &R, alloc: Global, line: &str) -> Result<String>
where
    R: Files + AllocGlobal + Threads + Wait + Sync,
{
    let named = read_scenario(line)?;
    let mut shelf = FileShelf::new(rt);
    let text = shelf.load(alloc, named.circuit, FILE_LIMIT)?;
    let scenario = Scenario {
        text: &text,
        ..named
    };
    scenario_lines(rt, alloc, &scenario)
}

fn main(rt: HostRuntime) -> Result<()> {
    let alloc: Global = rt.alloc();
    for line in rt.lines(alloc) {
        let line = line?;
        println!(rt; "{}", line.as_str())?;
        let Some(words) = line.as_str().strip_prefix("zk ") else {
            let lines = lines_of(&rt, alloc, line.as_str())?;
            print!(rt; "{}", lines.as_str())?;
            continue;
        };
        let words = words_between_spaces(alloc, words)?;
        let mut shelf = FileShelf::new(&rt);
        let mut out = OutputSink::new(&rt);
        let mut notices = NoticeSink::new(&rt);
        let disk = FileDisk::new(&rt);
        let nobody = FailAt::new(Vec::new(alloc));
        let door: MemoryDoor<ScriptedLink<NoFault>, FailAt> = MemoryDoor::new(alloc, nobody);
        let finish = run_zk(
            &rt,
            alloc,
            &words,
            &mut shelf,
            disk,
            door,
            &[7; 32],
            &mut out,
            &mut notices,
        );
        let status = finish.status;
        println!(rt; "status {status}")?;
    }
    Ok(())
}
