// The three programs: read, call, write.
use files::{Files, ReadFailed};
use lines::{Program, Remark};
use pages::{PACKED_WORDS, Written};
use std::io::{Read, Write};
use text::Reader;

// Reads a trace, and writes what a call of `pages` makes of it: a text, which has room for it, and what there is to say. (The call comes in a
// closure: the check does not find the contract of a function of `pages` that is handed on by its name.)
fn show_trace<R: Read, W: Write, E: Write, F: Fn(&[u8], &mut [u8], &mut [u8]) -> Written>(
    program: Program,
    make: F,
    text: &mut [u8],
    files: &mut Files<R, W, E>,
)
    requires { F.IsAlwaysCallable make }
{
    let mut bytes = [0u8; trace::INPUT_BYTES];
    let mut said = [0u8; lines::REMARK_BYTES];
    let Ok(size) = files::read_trace(&mut files.input, &mut bytes) else {
        return files::say(program, Remark::NoInput, &mut files.errors);
    };
    let written = make(&bytes[..size], text, &mut said);
    files.write_both(program, written.output, text, written.said, &said);
}

// Runs a trace, and prints its page.
pub fn run_trace<R: Read, W: Write, E: Write>(files: &mut Files<R, W, E>) {
    let mut text = [0u8; pages::PAGE_BYTES];
    show_trace(
        Program::RunTrace,
        |bytes, text, said| pages::run_trace(bytes, text, said),
        &mut text,
        files,
    );
}

// Prints the words of a trace as text.
pub fn unpack_trace<R: Read, W: Write, E: Write>(files: &mut Files<R, W, E>) {
    let mut text = [0u8; pages::TEXT_BYTES];
    show_trace(
        Program::UnpackTrace,
        |bytes, text, said| pages::unpack_trace(bytes, text, said),
        &mut text,
        files,
    );
}

fn take_piece<E: Write>(
    reader: Reader,
    piece: &[u8],
    words: &mut [u16; PACKED_WORDS],
    errors: &mut E,
) -> Reader {
    let mut said = [0u8; pages::SAID_BYTES];
    let taken = pages::take_text(reader, piece, words, &mut said);
    let _ = files::write_made(errors, taken.said, &said);
    taken.reader
}

// Takes a text piece by piece, and names its bad lines, also in the piece in which a read fails.
fn take_input<R: Read, W, E: Write>(
    files: &mut Files<R, W, E>,
    words: &mut [u16; PACKED_WORDS],
) -> Result<Reader, ReadFailed> {
    let mut reader = text::start();
    // more pieces than there is time for
    for _ in 0..u64::MAX {
        let mut chunk = [0u8; files::CHUNK];
        let read = files::fill(&mut files.input, &mut chunk);
        let (Ok(size) | Err(ReadFailed { bytes: size })) = read;
        reader = take_piece(reader, &chunk[..size], words, &mut files.errors);
        if read? < files::CHUNK {
            return Ok(reader);
        }
    }
    Err(ReadFailed { bytes: 0 })
}

fn end_text<R, W: Write, E: Write>(
    reader: Reader,
    words: &mut [u16; PACKED_WORDS],
    files: &mut Files<R, W, E>,
) {
    let mut blocks = [0u8; trace::TRACE_BYTES];
    let mut said = [0u8; pages::SAID_BYTES];
    let written = pages::end_text(reader, words, &mut blocks, &mut said);
    files.write_both(
        Program::PackTrace,
        written.output,
        &blocks,
        written.said,
        &said,
    );
}

// Makes a trace of a text.
pub fn pack_text<R: Read, W: Write, E: Write>(files: &mut Files<R, W, E>) {
    let mut words = [0u16; PACKED_WORDS];
    match take_input(files, &mut words) {
        Ok(reader) => end_text(reader, &mut words, files),
        Err(_) => files::say(Program::PackTrace, Remark::NoInput, &mut files.errors),
    }
}
