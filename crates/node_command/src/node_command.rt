// `node FILE K`
ghost use Rattle.std.specs.Prelude.{◌≡◌, ◌⊎◌, IfOk, IfErr, OnOk, OnErr, string_bytes};
ghost use Rattle.std.specs.Option.{option_map};
ghost use Rattle.zk_port.specs.Changes.{change};
ghost use Rattle.zk_port.specs.Files.{OthersStay, stored};
ghost use Rattle.command_words.specs.Words.{node_ask};
ghost use Rattle.file_commands.specs.Effects.{CountsStay, IsName, NameFailed, OnlyAsks, effects};
ghost use Rattle.file_commands.specs.Journals.{node_journal_name};
ghost use Rattle.file_commands.specs.Stops.{PrintsMade};
ghost use Rattle.file_commands.specs.declared.refusal.Refusal.TheVariants as stops;
ghost use Rattle.node_command.specs.NodeRuns.{IsNodeName, KeepsOthers, MakesNode, NodeStop, StoresNode, blank_claims, node_line};

use dealer_files::VerifierFile;
use file_commands::{Refusal, load_verifier, node_journal_name, say, say_memory, say_stop};
use std::alloc::{AllocError, Global};
use twin_journal::{JournalKind, blank_twin};
use zk_model::MAX_CLAIM_SLOTS;
use zk_port::{PortFault, Shelf, Sink};

/// The blank journal of claims of the file's units.
fn blank(alloc: Global, file: &VerifierFile) -> Result<Vec<u8>, AllocError>
    ensures { IfOk result (λ bytes. bytes.items ≡ blank_claims file.now) }
{
    blank_twin(
        alloc,
        JournalKind::Claims,
        &file.id(),
        file.total(),
        MAX_CLAIM_SLOTS,
    )
}

/// Stores the blank journal of the node of this number of the verifier's file.
fn store_blank<F: Shelf>(
    alloc: Global,
    shelf: &mut F,
    name: &str,
    node: u32,
    file: &VerifierFile,
) -> Result<(), Refusal>
    ensures stored { OnOk result ((F.state shelf.new).told ≡ option_map
        (stored (node_journal_name name.now node) (blank_claims file.now)) (F.state shelf.old).told) }
    ensures quiet { OnOk result (CountsStay (change (F.state shelf.old) (F.state shelf.new))) }
    ensures others { OnErr result (OthersStay (node_journal_name name.now node)
        (F.state shelf.old).told (F.state shelf.new).told) }
    ensures stop { IfErr result (λ stop. (stop ≡ stops.NoMemory) ⊎ ((stop ≡ stops.ShelfFailed)
        × NameFailed (node_journal_name name.now node) (change (F.state shelf.old) (F.state shelf.new)))) }
    ensures asked { OnlyAsks (IsName (node_journal_name name.now node))
        (change (F.state shelf.old) (F.state shelf.new)) }
{
    let bytes = blank(alloc, file)?;
    let journal = node_journal_name(alloc, name, node)?;
    match shelf.store(alloc, &journal, &bytes) {
        Ok(()) => Ok(()),
        Err(PortFault::Failed) => Err(Refusal::ShelfFailed),
        Err(PortFault::NoMemory) => Err(Refusal::NoMemory),
    }
}

/// Makes the node of this number of the verifier's file of this name.
fn store_node<F: Shelf>(alloc: Global, shelf: &mut F, name: &str, node: u32) -> Result<(), Refusal>
    ensures stored { OnOk result (StoresNode (node_ask name.now node)
        (change (F.state shelf.old) (F.state shelf.new))) }
    ensures stop { IfErr result (NodeStop (node_ask name.now node)
        (change (F.state shelf.old) (F.state shelf.new))) }
    ensures others { KeepsOthers (node_ask name.now node)
        (change (F.state shelf.old) (F.state shelf.new)) }
    ensures asked { OnlyAsks (IsNodeName (node_ask name.now node))
        (change (F.state shelf.old) (F.state shelf.new)) }
{
    let file = match load_verifier(alloc, shelf, name) {
        Ok(file) => file,
        Err(stop) => return Err(stop),
    };
    match store_blank(alloc, shelf, name, node, &file) {
        Ok(()) => Ok(()),
        Err(stop) => Err(stop),
    }
}

/// The line of a node.
fn write_node(alloc: Global, node: u32) -> Result<String, AllocError>
    ensures { IfOk result (λ line. string_bytes line ≡ node_line node) }
{
    Ok(format!(in alloc; "node {node}\n")?)
}

/// Says that the node is made, or that there is no memory for its line, and answers the status.
fn say_node<O: Sink>(alloc: Global, out: &mut O, node: u32) -> u8
    ensures { PrintsMade 0 (node_line node) result (change (O.state out.old) (O.state out.new)) }
{
    match write_node(alloc, node) {
        Ok(line) => say(alloc, out, line.as_bytes(), 0),
        Err(_) => say_memory(alloc, out),
    }
}

/// `node FILE K`: stores the blank journal of claims of node K of the verifier's file of this name, in place of one that is there, says
/// so, or why it is not stored, and answers the status.
pub fn run_node<F: Shelf, O: Sink>(
    alloc: Global,
    shelf: &mut F,
    out: &mut O,
    name: &str,
    node: u32,
) -> u8
    ensures { MakesNode (node_ask name.now node) (effects result
        (change (F.state shelf.old) (F.state shelf.new)) (change (O.state out.old) (O.state out.new))) }
{
    match store_node(alloc, shelf, name, node) {
        Ok(()) => say_node(alloc, out, node),
        Err(stop) => say_stop(alloc, out, stop),
    }
}
