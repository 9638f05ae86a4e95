// Why bytes are not read as a file.
ghost use Rattle.std.specs.Prelude.{◌≡◌};
ghost use Rattle.dealer_files.specs.declared.fault.FileFault.TheVariants as fault;

use std::alloc::{AllocError, AllocFailed};
use thiserror::Error;

/// Why bytes were not read as a file: the first of these that applies, of which the length comes twice, or memory ran out.
#[derive(Clone, Copy, Debug, PartialEq, Eq, Error)]
pub enum FileFault {
    /// The first 8 bytes are not the magic word.
    #[error("the file has another magic word")]
    BadMagic,
    /// The file is of the other side, or of a kind that there is not.
    #[error("the file is of another side, or of no kind")]
    BadKind,
    /// A number of the header is outside its limits, or a byte that is to be 0 is not.
    #[error("a number of the header is out of range")]
    BadParam,
    /// There are not as many bytes as a header has, or, with a header, as that says.
    #[error("the file has {got} bytes in place of {need}")]
    Length { need: u64, got: u64 },
    /// An element is the prime or more, or a bit is above 1; this is the place of its first byte.
    #[error("no element or bit stands at byte {place}")]
    BadElement { place: u64 },
    /// The verifier's key is 0.
    #[error("the key is 0")]
    ZeroKey,
    /// The last 32 bytes are not the digest of those before them.
    #[error("the digest is not that of the file")]
    BadDigest,
    /// Memory ran out.
    #[error("memory is missing")]
    NoMemory,
}

impl From<AllocError> for FileFault {
    ghost from_gives = { λ _ e. e ≡ fault.NoMemory };

    fn from(_: AllocError) -> Self {
        FileFault::NoMemory
    }
}

impl<T: Drop> From<AllocFailed<T>> for FileFault {
    ghost from_gives = { λ _ e. e ≡ fault.NoMemory };

    fn from(_: AllocFailed<T>) -> Self {
        FileFault::NoMemory
    }
}
