// Why a call of the outside failed, for people to read.
use std::alloc::Global;
use std::fmt::{Display, Formatter};
use std::{fmt, io};

/// The objects of the outside whose calls may fail.
#[derive(Clone, Copy, Debug, PartialEq, Eq)]
pub enum Outside {
    Shelf,
    Journal,
    Door,
    Link,
}

impl Display for Outside {
    fn fmt<W: fmt::Write>(&self, f: &mut Formatter<W>) -> fmt::Result {
        f.pad(match self {
            Outside::Shelf => "shelf",
            Outside::Journal => "journal",
            Outside::Door => "door",
            Outside::Link => "link",
        })
    }
}

/// A call that failed: of which object, on which file or address, and the system's reason.
#[derive(Drop)]
pub struct Reason {
    of: Outside,
    name: String,
    error: io::Error,
}

impl Display for Reason {
    fn fmt<W: fmt::Write>(&self, f: &mut Formatter<W>) -> fmt::Result {
        write!(f, "failed {}: {}: {}", self.of, self.name, self.error)
    }
}

/// Keeps why a call failed, if it is the first that did and there is memory for its name.
pub(crate) fn keep_reason(
    kept: &mut Option<Reason>,
    alloc: Global,
    of: Outside,
    name: &str,
    error: io::Error,
) {
    if kept.is_none() {
        if let Ok(name) = String::from_str(alloc, name) {
            *kept = Some(Reason { of, name, error });
        }
    }
}
