// A trace in, its listing out.
use files::Files;
use lines::{Program, Remark};
use std::io::{Read, Write};

// The programs of printing take the same steps. (One function for both crates would be public, and require that the call handed to it may be made.)
pub fn list_trace<R: Read, W: Write, E: Write>(files: &mut Files<R, W, E>) {
    let mut bytes = [0u8; trace::INPUT_BYTES];
    let mut text = [0u8; listpages::LIST_BYTES];
    let mut said = [0u8; lines::REMARK_BYTES];
    let Ok(size) = files::read_trace(&mut files.input, &mut bytes) else {
        return files::say(Program::ListTrace, Remark::NoInput, &mut files.errors);
    };
    let written = listpages::list_trace(&bytes[..size], &mut text, &mut said);
    files.write_both(
        Program::ListTrace,
        written.output,
        &text,
        written.said,
        &said,
    );
}
