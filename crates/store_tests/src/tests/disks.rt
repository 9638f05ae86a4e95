// Disks in memory that tell nothing.
use memory_ports::{FailAt, MemoryDisk, QuietDisk};
use std::alloc::Global;
use std::test::Fail;

/// The id of all journals.
pub const ID: [u8; 32] = [7; 32];

/// A plan by which the calls of these numbers fail.
pub fn failing(alloc: Global, numbers: &[u64]) -> Result<FailAt, Fail> {
    Ok(FailAt::new(numbers.to_vec(alloc)?))
}

/// A disk that tells nothing, with these bytes, whose calls of these numbers fail.
pub fn quiet_disk(
    alloc: Global,
    bytes: Vec<u8>,
    numbers: &[u64],
) -> Result<QuietDisk<FailAt>, Fail> {
    let disk = MemoryDisk::new(alloc, bytes, 0, 60, failing(alloc, numbers)?)?;
    Ok(QuietDisk { disk })
}
