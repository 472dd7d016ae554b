// Input, and whether it could be read.
ghost use Rattle.std.specs.Prelude.{◌≡◌, ◌<◌, ◌≤◌, length, take, IfOk};
ghost use Rattle.std.specs.Io.{ReadsAtMost};
ghost use Rattle.std.specs.Io.KnownBytes.{Consumes, IsAtEnd, ReadConsumes};
ghost use Rattle.streams.specs.Reading.{bytes_read};

use std::io;
use std::io::{Error, ErrorKind, Read};

// A read that failed, after so many bytes.
#[derive(Clone, Copy, Debug, PartialEq, Eq)]
pub struct ReadFailed {
    pub bytes: usize,
}

// Whether a call that failed so was interrupted before it did anything.
pub(crate) fn interrupted(error: &Error) -> bool {
    error.kind() == ErrorKind::Interrupted
}

// One read, tried again where it is interrupted. (The tries end only for the proof: there is no time for so many.)
fn read_once<R: Read>(input: &mut R, bytes: &mut [u8]) -> io::Result<usize>
    ensures bound { ReadsAtMost result bytes.new }
    ensures read { ReadConsumes (R.remaining input.old) (R.remaining input.new) result bytes.new }
{
    for _ in 0..u64::MAX {
        match input.read(bytes) {
            Err(error) if interrupted(&error) => {}
            read => return read,
        }
    }
    Err(Error::from(ErrorKind::Interrupted))
}

// Reads until the slice is full or the input ends. The loop counts bytes and not turns: how far a turn comes is the reader's to say.
pub fn fill<R: Read>(input: &mut R, bytes: &mut [u8]) -> Result<usize, ReadFailed>
    ensures bound { bytes_read result ≤ length bytes.old }
    ensures read { Consumes (R.remaining input.old) (R.remaining input.new) (take (bytes_read result) bytes.new) }
    ensures end { IfOk result (λ n. n < length bytes.old → IsAtEnd (R.remaining input.new)) }
{
    let mut done: usize = 0;
    while done < bytes.len() {
        match read_once(input, &mut bytes[done..]) {
            Ok(0) => break,
            Ok(count) => done += count,
            Err(_) => return Err(ReadFailed { bytes: done }),
        }
    }
    Ok(done)
}
