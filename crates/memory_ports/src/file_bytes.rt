// Reads and writes of a file's bytes in memory.
ghost use Rattle.std.specs.Prelude.{◌≡◌, ◌≤◌, ◌+◌, ◌-◌, ◌++◌, ◌^◌, length, min, take, drop, replicate, vec_capacity, OnOk, OnErr, IsOk};
ghost use Rattle.zk_port.specs.Images.{written_at};

use std::alloc::AllocError;

/// No file in memory has room for more bytes.
pub const MAX_ROOM: usize = 1 << 62;

/// Puts these bytes in the place of those from `at` on.
fn lay_over(file: &mut [u8], at: usize, bytes: &[u8])
    requires { at + length bytes.now ≤ length file.old }
    ensures { file.new ≡ take at file.old ++ bytes.now ++ drop (at + length bytes.now) file.old }
{
    let (_, behind) = file.split_at_mut(at);
    let (range, _) = behind.split_at_mut(bytes.len());
    range.copy_from_slice(bytes);
}

/// The same in a vector.
fn lay_into(file: &mut Vec<u8>, at: usize, bytes: &[u8])
    requires { at + length bytes.now ≤ length file.old.items }
    ensures laid { file.new.items
        ≡ take at file.old.items ++ bytes.now ++ drop (at + length bytes.now) file.old.items }
    ensures capacity { vec_capacity file.old ≤ vec_capacity file.new }
{
    lay_over(file, at, bytes);
}

/// Adds zeros until there are at least so many bytes; without memory for it nothing changes.
fn reach(file: &mut Vec<u8>, end: usize) -> Result<(), AllocError>
    ensures reached { OnOk result (file.new.items
        ≡ file.old.items ++ replicate (end - length file.old.items) 0) }
    ensures refused { OnErr result (file.new.items ≡ file.old.items) }
    ensures capacity { vec_capacity file.old ≤ vec_capacity file.new }
    ensures fits { end ≤ vec_capacity file.old → IsOk result }
{
    if file.len() < end {
        file.resize(end, 0)?;
    }
    Ok(())
}

/// Writes these bytes at this place, also past the end; without memory for it nothing changes.
pub fn write_into(file: &mut Vec<u8>, at: usize, bytes: &[u8]) -> Result<(), AllocError>
    ensures written { OnOk result (file.new.items ≡ written_at at bytes.now file.old.items) }
    ensures refused { OnErr result (file.new.items ≡ file.old.items) }
    ensures capacity { vec_capacity file.old ≤ vec_capacity file.new }
    ensures fits { at + length bytes.now ≤ vec_capacity file.old
        → at + length bytes.now ≤ 2 ^ 63 → IsOk result }
{
    if bytes.is_empty() {
        return Ok(());
    }
    let Some(end) = at.checked_add(bytes.len()) else {
        return Err(AllocError);
    };
    reach(file, end)?;
    lay_into(file, at, bytes);
    Ok(())
}

/// Copies as many bytes as fit from this place on into the front of the buffer, and says how many.
pub fn read_from(file: &[u8], at: u64, buffer: &mut [u8]) -> usize
    ensures count { result ≡ min (length buffer.old) (length file.now - at) }
    ensures front { take result buffer.new ≡ take result (drop at file.now) }
    ensures rest { drop result buffer.new ≡ drop result buffer.old }
{
    let start = at.min(file.len() as u64) as usize;
    let rest = &file[start..];
    let count = buffer.len().min(rest.len());
    let (front, _) = buffer.split_at_mut(count);
    front.copy_from_slice(&rest[..count]);
    count
}
