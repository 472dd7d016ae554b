// Input, and whether it could be read.
ghost use Rattle.std.specs.Prelude.{◌≡◌, ◌+◌, ◌≤◌, ◌<◌, length, take, IfSome, IfOk};
ghost use Rattle.trace.specs.Layout.{words_per_record, block_bytes};
ghost use Rattle.trace.specs.Limits.{too_long, kept_length};
ghost use Rattle.streams.specs.Reading.{bytes_read};
ghost use Rattle.files.specs.Keeping.{IsKeptOf};

use std::io::Read;
use streams::{ReadFailed, fill};

// What is read at once of an input whose length has no limit.
pub const CHUNK: usize = 4096;

// How much of a trace is kept, with the rest of it counted: `first` bytes are read already.
fn count_rest<R: Read>(input: &mut R, first: usize) -> Result<usize, ReadFailed>
    requires { first ≤ too_long words_per_record + block_bytes }
    ensures short { bytes_read result < too_long words_per_record + block_bytes }
    ensures counted { IfOk result (λ n. IfSome (R.remaining input.old) (λ xs. n ≡ kept_length words_per_record (first + length xs))) }
{
    let mut kept = trace::kept(first);
    // more chunks than there is time for
    for _ in 0..u64::MAX {
        let mut chunk = [0u8; CHUNK];
        match fill(input, &mut chunk) {
            Ok(read) => {
                kept = trace::kept(kept + read);
                if read < CHUNK {
                    return Ok(kept);
                }
            }
            // what was read before the failure is counted too
            Err(failed) => {
                let bytes = trace::kept(kept + failed.bytes);
                return Err(ReadFailed { bytes });
            }
        }
    }
    Err(ReadFailed { bytes: kept })
}

// Reads a trace, and answers how much of it stands in the slice, which has trace::INPUT_BYTES: all of a trace that may be accepted, and of a
// longer one so much that it is answered alike.
pub fn read_trace<R: Read>(input: &mut R, bytes: &mut [u8]) -> Result<usize, ReadFailed>
    ensures bound { bytes_read result ≤ length bytes.old }
    ensures kept { IfOk result (λ n. length bytes.old ≡ too_long words_per_record + block_bytes → IfSome (R.remaining input.old) (λ xs. IsKeptOf xs (take n bytes.new))) }
{
    let read = fill(input, bytes)?;
    if read < trace::INPUT_BYTES {
        return Ok(read);
    }
    count_rest(input, trace::INPUT_BYTES)
}
