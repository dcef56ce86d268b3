//! Calls of streams that are made again where a signal interrupted them.

ghost use Rattle.std.specs.Io.{ReadsAtMost, WritesAtMost};

use std::io;
use std::io::{ErrorKind, Read, Write};

// How often a call that is interrupted is made at the most: longer than any run lasts.
const MOST_TRIES: u64 = u64::MAX;

/// Reads into the front of the buffer. A read that is interrupted has taken nothing.
pub fn read_again<R: Read>(reader: &mut R, into: &mut [u8]) -> io::Result<usize>
    ensures { ReadsAtMost result into.new }
{
    for _ in 0..MOST_TRIES {
        match reader.read(into) {
            Ok(count) => return Ok(count),
            Err(error) => {
                if error.kind() != ErrorKind::Interrupted {
                    return Err(error);
                }
            }
        }
    }
    Err(ErrorKind::Interrupted.into())
}

/// Writes a front of the bytes. A write that is interrupted has put nothing.
pub(crate) fn write_again<W: Write>(writer: &mut W, bytes: &[u8]) -> io::Result<usize>
    ensures { WritesAtMost result bytes.now }
{
    for _ in 0..MOST_TRIES {
        match writer.write(bytes) {
            Ok(count) => return Ok(count),
            Err(error) => {
                if error.kind() != ErrorKind::Interrupted {
                    return Err(error);
                }
            }
        }
    }
    Err(ErrorKind::Interrupted.into())
}

pub(crate) fn flush_again<W: Write>(writer: &mut W) -> io::Result<()> {
    for _ in 0..MOST_TRIES {
        match writer.flush() {
            Ok(()) => return Ok(()),
            Err(error) => {
                if error.kind() != ErrorKind::Interrupted {
                    return Err(error);
                }
            }
        }
    }
    Err(ErrorKind::Interrupted.into())
}
