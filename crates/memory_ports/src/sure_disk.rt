// A disk in memory that never fails.
ghost use Rattle.std.specs.Prelude.{◌≡◌, ◌≤◌, ◌+◌, ◌-◌, ◌^◌, vec_capacity, vec_len, length, min, max, take, drop, is_ok, true, IfOk};
ghost use Rattle.zk_port.specs.Images.{written_at};

use crate::file_bytes::{MAX_ROOM, read_from, write_into};
use std::alloc::{AllocError, Global};
use zk_port::{Access, Disk, Failed};

/// A disk in memory that never fails, with room for a stated number of bytes. It has one file, which every name
/// chooses, and tells no name. No crash comes, so none leaves anything.
#[derive(Drop)]
pub struct SureDisk {
    bytes: Vec<u8>,
    room: usize,
    ghost made: { room ≤ vec_capacity bytes },
    ghost sized: { room ≤ 2 ^ 62 },
}

impl SureDisk {
    /// A disk with these bytes, and room for so many.
    ///
    /// # Errors
    ///
    /// Only where memory runs out, as it does for more than 2^62 bytes.
    pub fn new(bytes: Vec<u8>, room: usize) -> Result<Self, AllocError>
        ensures content { IfOk result (λ disk. (⟦<SureDisk as Disk>⟧.state disk).content ≡ Some bytes.items) }
        ensures room { IfOk result (λ disk. (⟦<SureDisk as Disk>⟧.state disk).room ≡ Some room) }
    {
        let mut bytes = bytes;
        if room > MAX_ROOM {
            return Err(AllocError);
        }
        if bytes.len() < room {
            bytes.reserve(room - bytes.len())?;
        }
        Ok(SureDisk { bytes, room })
    }

    /// What a read of all would give.
    pub fn bytes(&self) -> &[u8]
        ensures { (⟦<SureDisk as Disk>⟧.state self.now).content ≡ Some result.now }
    {
        &self.bytes
    }
}

impl Disk for SureDisk {
    ghost use Rattle.std.specs.Prelude.{Some};
    ghost use Rattle.zk_port.specs.Disks.{untold};

    ghost state = { λ d. record (untold 0) { content = Some d.bytes.items; room = Some d.room } };

    ghost counts_now = { λ d t c le none. none };

    ghost only_now = { λ d c none. none };

    fn faults(&self) -> u64 {
        0
    }

    fn choose(&mut self, _name: &str, _access: Access) -> Result<(), Failed>
        ensures unchanged { self.new ≡ self.old }
        ensures done { is_ok result ≡ true }
    {
        Ok(())
    }

    fn read(&mut self, at: u64, buffer: &mut [u8]) -> Result<usize, Failed>
        ensures unchanged { self.new ≡ self.old }
        ensures done { is_ok result ≡ true }
        ensures end { IfOk result (λ n. n ≡ min (length buffer.old) (length self.old.bytes.items - at)) }
        ensures bytes { IfOk result (λ n. take n buffer.new ≡ take n (drop at self.old.bytes.items)) }
        ensures rest { IfOk result (λ n. drop n buffer.new ≡ drop n buffer.old) }
    {
        Ok(read_from(&self.bytes, at, buffer))
    }

    fn write_at(&mut self, at: u64, bytes: &[u8]) -> Result<(), Failed>
        requires { at + length bytes.now ≤ self.old.room }
        ensures written { self.new.bytes.items ≡ written_at at bytes.now self.old.bytes.items }
        ensures room { self.new.room ≡ self.old.room }
        ensures done { is_ok result ≡ true }
    {
        let _ = write_into(&mut self.bytes, at as usize, bytes);
        Ok(())
    }

    fn sync(&mut self) -> Result<(), Failed>
        ensures unchanged { self.new ≡ self.old }
        ensures done { is_ok result ≡ true }
    {
        Ok(())
    }
}
