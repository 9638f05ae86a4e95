// A disk in memory that tells nothing of what it holds.
use crate::memory_disk::MemoryDisk;
use crate::plan::FaultPlan;
use zk_port::{Access, Disk, Failed};

/// A disk in memory that tells no content and no crash: what a caller proves over it holds on any bytes.
#[derive(Drop)]
pub struct QuietDisk<P: FaultPlan> {
    pub disk: MemoryDisk<P>,
}

impl<P: FaultPlan> Disk for QuietDisk<P> {
    ghost use Rattle.zk_port.specs.Disks.{untold};

    ghost state = { λ d. untold (P.count d.disk.plan) };

    ghost counts_now = { λ d t c le none. none };

    ghost only_now = { λ d c none. none };

    fn faults(&self) -> u64 {
        self.disk.faults()
    }

    fn choose(&mut self, name: &str, access: Access) -> Result<(), Failed> {
        self.disk.choose(name, access)
    }

    fn read(&mut self, at: u64, buffer: &mut [u8]) -> Result<usize, Failed> {
        self.disk.read(at, buffer)
    }

    fn write_at(&mut self, at: u64, bytes: &[u8]) -> Result<(), Failed> {
        self.disk.write_at(at, bytes)
    }

    fn sync(&mut self) -> Result<(), Failed> {
        self.disk.sync()
    }
}
