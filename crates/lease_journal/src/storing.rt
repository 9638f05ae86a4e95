// Bytes that are written and synced, and numbers.
ghost use Rattle.std.specs.Prelude.{◌≡◌, ◌<◌, ◌≤◌, ◌+◌, ◌^◌, length, OnOk};
ghost use Rattle.std.specs.Option.{option_map};
ghost use Rattle.zk_port.specs.Counts.{HasDiskCause};
ghost use Rattle.zk_port.specs.Images.{HasDiskRoom, Only, written_at};
ghost use Rattle.lease_journal.specs.Journals.{number_at};
ghost use Rattle.lease_journal.specs.Keeps.{ChangesAt};

use zk_port::{Disk, Failed};

/// Writes these bytes at this place, and syncs them.
pub fn store_at<B: Disk>(disk: &mut B, at: u64, bytes: &[u8]) -> Result<(), Failed>
    requires room { HasDiskRoom (at + length bytes.now) (B.state disk.old).room }
    requires place { at + length bytes.now ≤ 2 ^ 63 }
    ensures written { OnOk result ((B.state disk.new).content
        ≡ option_map (written_at at bytes.now) (B.state disk.old).content) }
    ensures durable { OnOk result (Only (B.state disk.new).content (B.state disk.new).images) }
    ensures changes { ChangesAt at (length bytes.now) (B.state disk.old) (B.state disk.new) }
    ensures cause { HasDiskCause (B.state disk.old).faults (B.state disk.new).faults result }
{
    disk.write_at(at, bytes)?;
    disk.sync()?;
    Ok(())
}

/// The number that 8 bytes from a place on say, the low one first.
pub fn word_at(bytes: &[u8], at: usize) -> u64
    requires { at + 8 ≤ length bytes.now }
    ensures { result ≡ number_at bytes.now at }
{
    let mut word = [0; 8];
    word.copy_from_slice(&bytes[at..at + 8]);
    u64::from_le_bytes(word)
}
