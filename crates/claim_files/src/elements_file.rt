// Files of elements that are loaded.
ghost use Rattle.std.specs.Prelude.{◌≡◌, length, IfOk, IfErr, OnOk};
ghost use Rattle.zk_port.specs.Changes.{change};
ghost use Rattle.element_file.specs.Elements.{SaysElements};
ghost use Rattle.claim_files.specs.ArithFiles.{ElementsStop, ElementsTextStop, IsElementsFile};
ghost use Rattle.file_commands.specs.Effects.{OnlyLoads, IsName};

use element_file::{ElementsError, read_counted};
use file_commands::{Refusal, load_file};
use mersenne_field::Fe;
use std::alloc::Global;
use zk_port::Shelf;

/// The elements that a text says, which is to say so many.
fn read_needed(alloc: Global, text: &[u8], need: u64) -> Result<Vec<Fe>, Refusal>
    ensures says { IfOk result (λ elements. SaysElements text.now elements.items) }
    ensures count { IfOk result (λ elements. length elements.items ≡ need) }
    ensures stop { IfErr result (ElementsTextStop need text.now) }
{
    match read_counted(alloc, text, need) {
        Ok(elements) => Ok(elements),
        Err(ElementsError::Fault(fault)) => Err(Refusal::BadElements(fault)),
        Err(ElementsError::NoMemory) => Err(Refusal::NoMemory),
    }
}

/// The elements that the file of this name says, which is to say so many.
pub fn load_elements<F: Shelf>(
    alloc: Global,
    shelf: &mut F,
    name: &str,
    need: u64,
) -> Result<Vec<Fe>, Refusal>
    ensures elements { IfOk result (λ elements.
        IsElementsFile (F.state shelf.old).told name.now elements.items) }
    ensures count { IfOk result (λ elements. length elements.items ≡ need) }
    ensures stop { IfErr result (ElementsStop name.now need
        (change (F.state shelf.old) (F.state shelf.new))) }
    ensures kept { OnlyLoads (IsName name.now) (change (F.state shelf.old) (F.state shelf.new)) }
    ensures quiet { OnOk result (F.state shelf.new ≡ F.state shelf.old) }
{
    let text = load_file(alloc, shelf, name)?;
    read_needed(alloc, &text, need)
}
