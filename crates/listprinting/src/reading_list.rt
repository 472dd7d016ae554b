// A listing in, its words out. The bytes are taken in pieces of whole lines, and what is left of a piece stands in front of the next.
ghost use Rattle.std.specs.Prelude.{◌≤◌, length};
ghost use Rattle.streams.specs.Reading.{bytes_read};

use files::{Files, ReadFailed, WriteFailed};
use lines::{Program, Remark};
use listpages::{PIECE_BYTES, Reading};
use std::io::{Read, Write};

// The end of the last whole line, 0 where there is none.
fn whole_lines(bytes: &[u8]) -> usize
    ensures { result ≤ length bytes.now }
{
    match bytes.iter().rposition(|byte| *byte == b'\n') {
        Some(last) => last + 1,
        None => 0,
    }
}

// Moves what stands after `cut` to the front, and answers how much that is.
fn move_rest(bytes: &mut [u8], cut: usize) -> usize
    requires { cut ≤ length bytes.old }
    ensures { result ≤ length bytes.old }
{
    bytes.copy_within(cut.., 0);
    bytes.len() - cut
}

// Reads more bytes after those that are held, and answers how many are held then.
fn fill_rest<R: Read>(input: &mut R, bytes: &mut [u8], held: usize) -> Result<usize, ReadFailed>
    requires { held ≤ length bytes.old }
    ensures { bytes_read result ≤ length bytes.old }
{
    match files::fill(input, &mut bytes[held..]) {
        Ok(more) => Ok(held + more),
        Err(failed) => Err(ReadFailed {
            bytes: held + failed.bytes,
        }),
    }
}

// Writes the answers to some lines, and gives the reader after them. Where they cannot be written, that is said.
fn answer<R, W: Write, E: Write>(
    reading: Reading,
    bytes: &[u8],
    files: &mut Files<R, W, E>,
) -> Result<Reading, WriteFailed> {
    let mut text = [0u8; listpages::ANSWER_BYTES];
    let read = listpages::read_lines(reading, bytes, &mut text);
    let written = files::write_made(&mut files.output, read.output, &text);
    if written.is_err() {
        files::say(Program::ReadList, Remark::NoOutput, &mut files.errors);
    }
    written.map(|()| read.reading)
}

// The last bytes of a listing: the line at their end need not be whole.
fn end_list<R, W: Write, E: Write>(reading: Reading, bytes: &[u8], files: &mut Files<R, W, E>) {
    if let Ok(Reading { refused, .. }) = answer(reading, bytes, files) {
        if refused > 0 {
            files::say(
                Program::ReadList,
                Remark::Unread(refused),
                &mut files.errors,
            );
        }
    }
}

// The last bytes before a read failed: only whole lines are answered.
fn break_off<R, W: Write, E: Write>(reading: Reading, bytes: &[u8], files: &mut Files<R, W, E>) {
    let cut = whole_lines(bytes);
    let _ = answer(reading, &bytes[..cut], files);
    files::say(Program::ReadList, Remark::NoInput, &mut files.errors);
}

// Takes a listing piece by piece.
fn take_lines<R: Read, W: Write, E: Write>(files: &mut Files<R, W, E>, bytes: &mut [u8]) {
    let mut state = Reading {
        waits: false,
        refused: 0,
    };
    let mut held: usize = 0;
    // more pieces than there is time for
    for _ in 0..u64::MAX {
        match fill_rest(&mut files.input, bytes, held) {
            Err(failed) => return break_off(state, &bytes[..failed.bytes], files),
            Ok(size) if size < bytes.len() => return end_list(state, &bytes[..size], files),
            Ok(_) => {}
        }
        let cut = whole_lines(bytes);
        if cut == 0 {
            return files::say(Program::ReadList, Remark::LongLine, &mut files.errors);
        }
        let Ok(next) = answer(state, &bytes[..cut], files) else {
            return;
        };
        state = next;
        held = move_rest(bytes, cut);
    }
}

pub fn read_list<R: Read, W: Write, E: Write>(files: &mut Files<R, W, E>) {
    let mut bytes = [0u8; PIECE_BYTES];
    take_lines(files, &mut bytes);
}
