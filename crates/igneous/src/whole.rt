ghost use Rattle.std.specs.Prelude.{◌≡◌, IfOk, IfSome, vec_len};

use std::alloc::Global;
use std::io;
use std::io::{ErrorKind, Read};

/// All bytes of a reader that is said to have so many. One more is asked for, and none beyond that: a reader that has more or fewer, as
/// of a file that changes while it is read, is an error. One that has none isn't asked, since the kernel's own files say so and wait.
pub fn read_whole<R: Read + Drop>(alloc: Global, reader: R, length: u64) -> io::Result<Vec<u8>>
    ensures length { IfOk result (λ bytes. vec_len bytes ≡ length) }
{
    let mut bytes = Vec::with_capacity(alloc, (length as usize).saturating_add(1))?;
    if length > 0 {
        reader
            .take(length.saturating_add(1))
            .read_to_end(&mut bytes)?;
    }
    if bytes.len() as u64 != length {
        return Err(io::Error::from(ErrorKind::UnexpectedEof));
    }
    Ok(bytes)
}
