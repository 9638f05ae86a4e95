// Why a run stops before its work is done.
ghost use Rattle.std.specs.Prelude.{◌≡◌};
ghost use Rattle.file_commands.specs.declared.refusal.Refusal.TheVariants as stop;

use bristol_reader::ReadFault;
use dealer_files::FileFault;
use element_file::ElementsFault;
use poly_text::PolyFault;
use std::alloc::AllocError;

/// Why a run stops before its work is done; each has its status and its line.
#[derive(Clone, Copy, Debug, PartialEq, Eq)]
pub enum Refusal {
    /// Memory was missing.
    NoMemory,
    /// The words ask for nothing.
    Usage,
    /// A circuit's text is refused.
    BadText(ReadFault),
    /// A verifier's file is refused, or memory was missing to read it.
    BadFile(FileFault),
    /// A file has more bytes than this.
    TooLong { limit: u64 },
    /// There are `got` public bits, and no more than so many inputs.
    ManyPublic { inputs: u64, got: u64 },
    /// There are `got` bits in place of `need`.
    WrongBits { need: u64, got: u64 },
    /// There are `got` claimed outputs in place of `need`.
    WrongOutputs { need: u64, got: u64 },
    /// A file of elements is refused.
    BadElements(ElementsFault),
    /// A text of constraints is refused.
    BadConstraints(PolyFault),
    /// The circuit gives another value than this claimed output, or does not meet an assertion: they count on behind the outputs. Or the
    /// values do not meet this constraint.
    Unsatisfied { output: u64 },
    /// The session needs so many correlations, and units of them above 4,096.
    TooLarge { need: u64, units: u64 },
    /// Two dealt files are not of one dealing: the first unit that is not.
    NotDealt { unit: u64 },
    /// The log of a session has a fault at this byte.
    BadLog { place: u64 },
    /// This line of a file of statements, counted from 0, names none.
    StatementLine { line: u64 },
    /// A file of statements has so many lines, none or too many.
    StatementCount { lines: u64 },
    /// A call of the shelf failed.
    ShelfFailed,
    /// The door does not listen.
    DoorFailed,
    /// A journal ends at `got`, before its header is whole or inside a slot that is read, where `need` bytes are needed.
    JournalShort { need: u64, got: u64 },
    /// This byte of a journal's header is another.
    JournalHeader { place: u64 },
    /// The body of this slot of a journal breaks its rule.
    JournalBody { slot: u64 },
    /// A call of the disk failed, which has failed so often now.
    JournalFailed { count: u64 },
}

impl From<AllocError> for Refusal {
    ghost from_gives = { λ _ e. e ≡ stop.NoMemory };

    fn from(_: AllocError) -> Self {
        Refusal::NoMemory
    }
}

impl From<FileFault> for Refusal {
    ghost from_gives = { λ fault e. e ≡ stop.BadFile fault };

    fn from(fault: FileFault) -> Self {
        Refusal::BadFile(fault)
    }
}
