// Writes what a run has to say.
ghost use Rattle.std.specs.Prelude.{◌≡◌, IfOk, string_bytes};
ghost use Rattle.zk_port.specs.Changes.{change};
ghost use Rattle.file_commands.specs.Stops.{Prints, PrintsMade, stop_line, stop_status, fault_line, file_line, pair_line, poly_line, refused_line, elements_line};
ghost use Rattle.file_commands.specs.declared.refusal.Refusal.TheVariants.{NoMemory};

use crate::refusal::Refusal;
use bristol_reader::ReadFault;
use dealer_files::FileFault;
use element_file::ElementsFault;
use poly_text::PolyFault;
use std::alloc::{AllocError, Global};
use zk_port::{PortFault, Sink};

/// Writes the text, and answers the status, or what a fault of the sink makes of it.
pub fn say<O: Sink>(alloc: Global, out: &mut O, text: &[u8], status: u8) -> u8
    ensures { Prints status text.now result (change (O.state out.old) (O.state out.new)) }
{
    match out.put(alloc, text) {
        Ok(()) => status,
        Err(PortFault::Failed) => { if status <= 1 { 4 } else { status } }
        Err(PortFault::NoMemory) => 7,
    }
}

/// The name of the fault with its number, and the token or the wire that it stands at.
fn fault_parts(fault: ReadFault) -> (&'static str, u64)
    ensures { refused_line result.0.now result.1 ≡ fault_line fault }
{
    match fault {
        ReadFault::ShortText { token } => ("ShortText 1", token),
        ReadFault::BadNumber { token } => ("BadNumber 2", token),
        ReadFault::TooLarge { token } => ("TooLarge 3", token),
        ReadFault::BadGate { token } => ("BadGate 4", token),
        ReadFault::BadConstant { token } => ("BadConstant 5", token),
        ReadFault::WireRange { token } => ("WireRange 6", token),
        ReadFault::ReadBeforeSet { token } => ("ReadBeforeSet 7", token),
        ReadFault::SetTwice { token } => ("SetTwice 8", token),
        ReadFault::OutputUnset { wire } => ("OutputUnset 9", u64::from(wire)),
        ReadFault::ExtraText { token } => ("ExtraText 10", token),
    }
}

/// The line that says that a file is refused: for this fault, at this place.
fn write_refused(alloc: Global, fault: &str, place: u64) -> Result<String, AllocError>
    ensures { IfOk result (λ line. string_bytes line ≡ refused_line fault.now place) }
{
    Ok(format!(in alloc; "refused {fault} {place}\n")?)
}

/// A line of these words and two numbers.
fn write_pair(alloc: Global, words: &str, first: u64, second: u64) -> Result<String, AllocError>
    ensures { IfOk result (λ line. string_bytes line ≡ pair_line words.now first second) }
{
    Ok(format!(in alloc; "{words} {first} {second}\n")?)
}

/// The line that says the fault of a circuit's text.
fn write_fault(alloc: Global, fault: ReadFault) -> Result<String, AllocError>
    ensures { IfOk result (λ line. string_bytes line ≡ fault_line fault) }
{
    let (name, place) = fault_parts(fault);
    write_refused(alloc, name, place)
}

/// The line that says the fault of a verifier's file.
fn write_file_fault(alloc: Global, fault: FileFault) -> Result<String, AllocError>
    ensures { IfOk result (λ line. string_bytes line ≡ file_line fault) }
{
    match fault {
        FileFault::BadMagic => String::from_str(alloc, "refused BadMagic 1\n"),
        FileFault::BadKind => String::from_str(alloc, "refused BadKind 2\n"),
        FileFault::BadParam => String::from_str(alloc, "refused BadParam 3\n"),
        FileFault::Length { need, got } => write_pair(alloc, "refused Length 4", need, got),
        FileFault::BadElement { place } => write_refused(alloc, "BadElement 5", place),
        FileFault::ZeroKey => String::from_str(alloc, "refused ZeroKey 6\n"),
        FileFault::BadDigest => String::from_str(alloc, "refused BadDigest 7\n"),
        FileFault::NoMemory => String::from_str(alloc, "memory\n"),
    }
}

/// The line that says the fault of a file of elements.
fn write_elements_fault(alloc: Global, fault: ElementsFault) -> Result<String, AllocError>
    ensures { IfOk result (λ line. string_bytes line ≡ elements_line fault) }
{
    match fault {
        ElementsFault::BadValue { token } => write_refused(alloc, "BadValue 1", token),
        ElementsFault::Count { need, got } => write_pair(alloc, "refused Count 2", need, got),
    }
}

/// The line that says the fault of a text of constraints.
fn write_poly_fault(alloc: Global, fault: PolyFault) -> Result<String, AllocError>
    ensures { IfOk result (λ line. string_bytes line ≡ poly_line fault) }
{
    match fault {
        PolyFault::ShortText { token } => write_refused(alloc, "ShortText 1", token),
        PolyFault::BadNumber { token } => write_refused(alloc, "BadNumber 2", token),
        PolyFault::TooLarge { token } => write_refused(alloc, "TooLarge 3", token),
        PolyFault::VarRange { token } => write_refused(alloc, "VarRange 4", token),
        PolyFault::ExtraText { token } => write_refused(alloc, "ExtraText 5", token),
    }
}

/// The line of the stop.
fn write_stop(alloc: Global, stop: Refusal) -> Result<String, AllocError>
    ensures { IfOk result (λ line. string_bytes line ≡ stop_line stop) }
{
    match stop {
        Refusal::Usage => {
            String::from_str(
                alloc,
                "usage: zk deal, eval, rehearse, prove, serve, serve-many, migrate, status, rehearse-poly, prove-poly, serve-poly, rehearse-arith, prove-arith, serve-arith, audit-arith, node, broker, serve-node or audit\n",
            )
        }
        Refusal::BadText(fault) => write_fault(alloc, fault),
        Refusal::BadFile(fault) => write_file_fault(alloc, fault),
        Refusal::TooLong { limit } => write_refused(alloc, "TooLong 0", limit),
        Refusal::ManyPublic { inputs, got } => write_pair(alloc, "refused public", inputs, got),
        Refusal::WrongBits { need, got } => write_pair(alloc, "refused bits", need, got),
        Refusal::WrongOutputs { need, got } => write_pair(alloc, "refused outputs", need, got),
        Refusal::BadElements(fault) => write_elements_fault(alloc, fault),
        Refusal::BadConstraints(fault) => write_poly_fault(alloc, fault),
        Refusal::Unsatisfied { output } => Ok(format!(in alloc; "unsatisfied {output}\n")?),
        Refusal::TooLarge { need, units } => write_pair(alloc, "too large", need, units),
        Refusal::NotDealt { unit } => write_refused(alloc, "NotDealt 8", unit),
        Refusal::BadLog { place } => write_refused(alloc, "LogFault 1", place),
        Refusal::StatementLine { line } => write_refused(alloc, "BadLine 1", line),
        Refusal::StatementCount { lines } => write_refused(alloc, "Count 2", lines),
        Refusal::ShelfFailed => String::from_str(alloc, "failed shelf\n"),
        Refusal::DoorFailed => String::from_str(alloc, "failed door\n"),
        Refusal::JournalShort { need, got } => write_pair(alloc, "refused Short 1", need, got),
        Refusal::JournalHeader { place } => write_refused(alloc, "BadHeader 2", place),
        Refusal::JournalBody { slot } => write_refused(alloc, "BadBody 3", slot),
        Refusal::JournalFailed { count } => Ok(format!(in alloc; "journal failed {count}\n")?),
        Refusal::NoMemory => String::from_str(alloc, "memory\n"),
    }
}

/// The status of the stop.
fn status_of(stop: Refusal) -> u8
    ensures { result ≡ stop_status stop }
{
    match stop {
        Refusal::Unsatisfied { .. } => 1,
        Refusal::Usage => 2,
        Refusal::NoMemory | Refusal::BadFile(FileFault::NoMemory) => 7,
        Refusal::BadText(_)
        | Refusal::BadFile(_)
        | Refusal::TooLong { .. }
        | Refusal::ManyPublic { .. }
        | Refusal::WrongBits { .. }
        | Refusal::WrongOutputs { .. }
        | Refusal::BadElements(_)
        | Refusal::BadConstraints(_)
        | Refusal::NotDealt { .. }
        | Refusal::BadLog { .. }
        | Refusal::StatementLine { .. }
        | Refusal::StatementCount { .. }
        | Refusal::JournalShort { .. }
        | Refusal::JournalHeader { .. }
        | Refusal::JournalBody { .. } => 3,
        Refusal::ShelfFailed | Refusal::DoorFailed => 4,
        Refusal::JournalFailed { .. } => 5,
        Refusal::TooLarge { .. } => 9,
    }
}

/// Writes the line that says that memory is missing, for which it needs none, and answers its status.
pub fn say_memory<O: Sink>(alloc: Global, out: &mut O) -> u8
    ensures { Prints (stop_status NoMemory) (stop_line NoMemory) result
        (change (O.state out.old) (O.state out.new)) }
{
    say(alloc, out, b"memory\n", 7)
}

/// Writes the line that says why the run stops, and answers its status; or says that there is no memory for the
/// line.
pub fn say_stop<O: Sink>(alloc: Global, out: &mut O, stop: Refusal) -> u8
    ensures { PrintsMade (stop_status stop) (stop_line stop) result
        (change (O.state out.old) (O.state out.new)) }
{
    match write_stop(alloc, stop) {
        Ok(line) => say(alloc, out, line.as_bytes(), status_of(stop)),
        Err(_) => say_memory(alloc, out),
    }
}
