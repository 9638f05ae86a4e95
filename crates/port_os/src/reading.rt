// Reads that leave what is behind the bytes that came as it was.
ghost use Rattle.std.specs.Prelude.{◌≡◌, ◌≤◌, drop, length, IfOk};

use std::io;
use std::io::{ErrorKind, Read};

/// How many bytes one read takes at most.
const PIECE: usize = 4096;

/// One read, which is tried again where a signal interrupts it.
fn read_once<S: Read>(stream: &mut S, buffer: &mut [u8]) -> io::Result<usize>
    ensures { IfOk result (λ n. n ≤ length buffer.new) }
{
    for _ in 0..u64::MAX {
        match stream.read(buffer) {
            Ok(n) => return Ok(n),
            Err(error) => {
                if error.kind() != ErrorKind::Interrupted {
                    return Err(error);
                }
            }
        }
    }
    Err(io::Error::from(ErrorKind::Interrupted))
}

/// Takes the next bytes into the front of the buffer, at most 4,096, and says how many: none in a buffer that is not empty means
/// that there are no more.
pub(crate) fn read_piece<S: Read>(stream: &mut S, buffer: &mut [u8]) -> io::Result<usize>
    ensures count { IfOk result (λ n. n ≤ length buffer.old) }
    ensures rest { IfOk result (λ n. drop n buffer.new ≡ drop n buffer.old) }
{
    let mut piece = [0; PIECE];
    let room = buffer.len().min(PIECE);
    let n = read_once(stream, &mut piece[..room])?;
    buffer[..n].copy_from_slice(&piece[..n]);
    Ok(n)
}

/// Takes bytes into the front of the buffer until it is full or there are no more, and says how many.
pub(crate) fn fill<S: Read>(stream: &mut S, buffer: &mut [u8]) -> io::Result<usize>
    ensures count { IfOk result (λ n. n ≤ length buffer.old) }
    ensures rest { IfOk result (λ n. drop n buffer.new ≡ drop n buffer.old) }
{
    let mut filled = 0;
    while filled < buffer.len() {
        let (_, behind) = buffer.split_at_mut(filled);
        let n = read_piece(stream, behind)?;
        if n == 0 {
            break;
        }
        filled += n;
    }
    Ok(filled)
}
