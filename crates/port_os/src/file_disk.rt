// A journal's file.
ghost use Rattle.std.specs.Prelude.{◌≡◌, ◌≤◌, true, drop, length, IfOk};
ghost use Rattle.zk_port.specs.Counts.{counted, HasDiskCause};
ghost use Rattle.zk_port.specs.Images.{ImagesFollow, IsTorn};

use crate::reading::fill;
use crate::reason::{Outside, Reason, keep_reason};
use std::alloc::Global;
use std::fs::{File, OpenOptions};
use std::io;
use std::io::{ErrorKind, Seek, SeekFrom, Write};
use std::rt::Files;
use zk_port::{Access, Disk, Failed};

/// A file of the system that is read and written in place, and that a sync writes through to the device. The name that was
/// chosen last is the file's; without one, and after one that could not be chosen, each call fails. As long as a file is chosen
/// an advisory lock is held on it (flock(2)), an exclusive one or, for reads alone, a shared one: where another disk has the file otherwise,
/// of this process or of another, it is not chosen.
#[derive(Drop)]
pub struct FileDisk<R> {
    rt: R,
    file: Option<File>,
    name: String,
    faults: u64,
    reason: Option<Reason>,
}

impl<R: Files<File = File> + AllocGlobal> FileDisk<R> {
    /// A disk of which no file is chosen yet, and no call has failed.
    pub fn new(rt: R) -> Self
        ensures { (⟦<FileDisk<R> as Disk>⟧.state result).faults ≡ 0 }
    {
        let alloc: Global = rt.alloc();
        FileDisk {
            rt,
            file: None,
            name: String::new(alloc),
            faults: 0,
            reason: None,
        }
    }

    /// Why the first call that failed did.
    pub fn reason(&self) -> Option<&Reason> {
        self.reason.as_ref()
    }

    /// Notes the name of the file that is asked for, for reasons alone; without memory for it there is none.
    fn note_name(&mut self, name: &str)
        ensures { self.new.faults ≡ self.old.faults }
    {
        let alloc: Global = self.rt.alloc();
        self.name = match String::from_str(alloc, name) {
            Ok(name) => name,
            Err(_) => String::new(alloc),
        };
    }

    /// A call that failed, which is counted.
    fn failed(&mut self, error: io::Error) -> Failed
        ensures count { self.new.faults ≡ counted true self.old.faults }
        ensures faults_grow { self.old.faults ≤ self.new.faults }
    {
        let alloc: Global = self.rt.alloc();
        keep_reason(
            &mut self.reason,
            alloc,
            Outside::Journal,
            self.name.as_str(),
            error,
        );
        self.faults = self.faults.saturating_add(1);
        Failed
    }
}

/// The file of this name, which nobody else has locked otherwise, and which is locked from now on.
fn open_locked<R: Files<File = File>>(rt: &R, name: &str, access: Access) -> io::Result<File> {
    let is_own = access == Access::Own;
    let file = OpenOptions::new().read(true).write(is_own).open(rt, name)?;
    let locked = if is_own {
        file.try_lock()
    } else {
        file.try_lock_shared()
    };
    match locked {
        Ok(()) => Ok(file),
        Err(error) => Err(io::Error::from(error)),
    }
}

/// The chosen file.
fn chosen(file: &mut Option<File>) -> io::Result<&mut File> {
    match file {
        Some(file) => Ok(file),
        None => Err(io::Error::from(ErrorKind::NotFound)),
    }
}

/// Reads from this place on until the buffer is full or the file ends, and says how many bytes there were.
fn read_from(file: &mut Option<File>, at: u64, buffer: &mut [u8]) -> io::Result<usize>
    ensures count { IfOk result (λ n. n ≤ length buffer.old) }
    ensures rest { IfOk result (λ n. drop n buffer.new ≡ drop n buffer.old) }
{
    let file = chosen(file)?;
    file.seek(SeekFrom::Start(at))?;
    let n = fill(file, buffer)?;
    Ok(n)
}

/// Writes these bytes from this place on.
fn write_from(file: &mut Option<File>, at: u64, bytes: &[u8]) -> io::Result<()> {
    let file = chosen(file)?;
    file.seek(SeekFrom::Start(at))?;
    file.write_all(bytes)
}

/// Has all that was written put on the device.
fn sync_file(file: &mut Option<File>) -> io::Result<()> {
    chosen(file)?.sync_all()
}

impl<R: Files<File = File> + AllocGlobal> Disk for FileDisk<R> {
    ghost use Rattle.zk_port.specs.Disks.{untold};

    ghost state = { λ d. record (untold d.faults) { images = λ _. Unit {0}; images_since = λ _ _. Unit {0} } };

    ghost counts_now = { λ d t c le now. tt };

    ghost only_now = { λ d c left. tt };

    fn faults(&self) -> u64 {
        self.faults
    }

    fn choose(&mut self, name: &str, access: Access) -> Result<(), Failed> {
        self.file = None; // its lock goes first: the name may be the same
        self.note_name(name);
        match open_locked(&self.rt, name, access) {
            Ok(file) => {
                self.file = Some(file);
                Ok(())
            }
            Err(error) => Err(self.failed(error)),
        }
    }

    fn read(&mut self, at: u64, buffer: &mut [u8]) -> Result<usize, Failed> {
        match read_from(&mut self.file, at, buffer) {
            Ok(n) => Ok(n),
            Err(error) => Err(self.failed(error)),
        }
    }

    fn write_at(&mut self, at: u64, bytes: &[u8]) -> Result<(), Failed>
        ensures cause { HasDiskCause self.old.faults self.new.faults result }
        ensures crash { ImagesFollow (IsTorn at (length bytes.now)) (λ _. Unit {0}) (λ _. Unit {0}) }
    {
        match write_from(&mut self.file, at, bytes) {
            Ok(()) => Ok(()),
            Err(error) => Err(self.failed(error)),
        }
    }

    fn sync(&mut self) -> Result<(), Failed> {
        match sync_file(&mut self.file) {
            Ok(()) => Ok(()),
            Err(error) => Err(self.failed(error)),
        }
    }
}
