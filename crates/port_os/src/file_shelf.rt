// Files of the system.
ghost use Rattle.std.specs.Prelude.{◌≡◌, List};

use crate::no_memory::found_no_memory;
use crate::reason::{Outside, Reason, keep_reason};
use crate::refusals::refusal;
use std::alloc::Global;
use std::fs::{OpenFile, OpenOptions};
use std::io::{Read, Write};
use std::os::unix::fs::OpenOptionsExt;
use std::rt::Files;
use std::{fs, io};
use zk_port::{LoadFault, PortFault, Shelf};

/// What the name of a file has behind it until the file is whole.
const UNFINISHED: &str = ".unfinished";

/// Who may read and write a file that is stored: its owner alone.
const OWN: u32 = 0o600;

/// Files of the system, by their paths. One count serves all names.
#[derive(Drop)]
pub struct FileShelf<R> {
    rt: R,
    faults: u64,
    reason: Option<Reason>,
}

impl<R: Files + AllocGlobal> FileShelf<R> {
    /// A shelf of which no call has failed yet.
    pub fn new(rt: R) -> Self
        ensures { (⟦<FileShelf<R> as Shelf>⟧.state result).faults ≡ 0 }
    {
        FileShelf {
            rt,
            faults: 0,
            reason: None,
        }
    }

    /// Why the first call that failed did.
    pub fn reason(&self) -> Option<&Reason> {
        self.reason.as_ref()
    }
}

/// The first bytes of the file, at most so many. Room for them is taken at once, with a byte more for the read that finds the
/// end.
fn read_up_to<R: Files + AllocGlobal>(rt: &R, name: &str, most: u64) -> io::Result<Vec<u8>> {
    let file = fs::open(rt, name)?;
    let room = file.metadata()?.len().min(most).saturating_add(1);
    let mut bytes = Vec::with_capacity(rt.alloc(), room as usize)?;
    file.take(most).read_to_end(&mut bytes)?;
    Ok(bytes)
}

/// Writes these bytes to a file that is not there yet, which its owner alone may read, and has them put on the device.
fn write_new<R: Files>(rt: &R, name: &str, bytes: &[u8]) -> io::Result<()> {
    let mut file = OpenOptions::new()
        .write(true)
        .create_new(true)
        .mode(OWN)
        .open(rt, name)?;
    file.write_all(bytes)?;
    file.sync_all()
}

/// The folder that a name is in.
fn folder_of(name: &str) -> &str {
    match name.rsplit_once('/') {
        Some(("", _)) => "/",
        Some((folder, _)) => folder,
        None => ".",
    }
}

/// Puts a whole file under a name, in one step, and has the folder's entry put on the device.
fn rename_whole<R: Files>(rt: &R, from: &str, name: &str) -> io::Result<()> {
    fs::rename(rt, from, name)?;
    fs::open(rt, folder_of(name))?.sync_all()
}

/// Puts these bytes under the name. A new file is written beside it and then takes its place: whoever has the old one open keeps that. Where
/// this fails the new file goes, and the old one stays, unless the sync of the folder alone failed.
fn replace<R: Files + AllocGlobal>(rt: &R, name: &str, bytes: &[u8]) -> io::Result<()> {
    let alloc: Global = rt.alloc();
    let unfinished = format!(in alloc; "{name}{UNFINISHED}")?;
    let _ = fs::remove_file(rt, &unfinished); // left by a run that was stopped
    let written = match write_new(rt, &unfinished, bytes) {
        Ok(()) => rename_whole(rt, &unfinished, name),
        Err(error) => Err(error),
    };
    if written.is_err() {
        let _ = fs::remove_file(rt, &unfinished);
    }
    written
}

impl<R: Files + AllocGlobal> Shelf for FileShelf<R> {
    ghost use Rattle.std.specs.Prelude.{None};

    ghost state = { λ s. record { told = None; faults = s.faults; faults_of = λ _. s.faults } };

    fn faults(&self) -> u64 {
        self.faults
    }

    fn load(&mut self, alloc: Global, name: &str, limit: u64) -> Result<Vec<u8>, LoadFault> {
        match read_up_to(&self.rt, name, limit.saturating_add(1)) {
            Ok(bytes) => {
                if bytes.len() as u64 > limit {
                    return Err(LoadFault::TooLong { limit });
                }
                Ok(bytes)
            }
            Err(error) => {
                if found_no_memory(&error) {
                    return Err(LoadFault::NoMemory);
                }
                keep_reason(&mut self.reason, alloc, Outside::Shelf, name, error);
                self.faults = self.faults.saturating_add(1);
                Err(LoadFault::Failed)
            }
        }
    }

    fn store(&mut self, alloc: Global, name: &str, bytes: &[u8]) -> Result<(), PortFault> {
        match replace(&self.rt, name, bytes) {
            Ok(()) => Ok(()),
            Err(error) => {
                keep_reason(&mut self.reason, alloc, Outside::Shelf, name, error);
                Err(refusal(error, &mut self.faults))
            }
        }
    }
}
