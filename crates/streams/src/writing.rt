// Output, and whether it went out.
ghost use Rattle.std.specs.Prelude.{ℕ, take, OnOk};
ghost use Rattle.std.specs.Io.{WritesAtMost};
ghost use Rattle.std.specs.Io.KnownBytes.{Appends, WriteAppends};

use crate::reading::interrupted;
use std::io;
use std::io::{Error, ErrorKind, Write};

// A write that failed.
#[derive(Clone, Copy, Debug, PartialEq, Eq)]
pub struct WriteFailed;

// One write, tried again as a read is. (The same loop over a closure would need a clause for what each call does to what the closure holds.)
fn write_once<W: Write>(output: &mut W, bytes: &[u8]) -> io::Result<usize>
    ensures bound { WritesAtMost result bytes.now }
    ensures written { WriteAppends (W.contents output.old) (W.contents output.new) result bytes.now }
{
    for _ in 0..u64::MAX {
        match output.write(bytes) {
            Err(error) if interrupted(&error) => {}
            written => return written,
        }
    }
    Err(Error::from(ErrorKind::Interrupted))
}

// Writes all of some bytes. Where that fails, some of the first ones went out. The loop counts bytes and not turns, as in `fill`.
pub fn write_all<W: Write>(output: &mut W, bytes: &[u8]) -> Result<(), WriteFailed>
    ensures all { OnOk result (Appends (W.contents output.old) (W.contents output.new) bytes.now) }
    ensures some { (n : ℕ) × Appends (W.contents output.old) (W.contents output.new) (take n bytes.now) }
{
    let mut done: usize = 0;
    while done < bytes.len() {
        match write_once(output, &bytes[done..]) {
            Ok(0) | Err(_) => return Err(WriteFailed),
            Ok(count) => done += count,
        }
    }
    Ok(())
}
