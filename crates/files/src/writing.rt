// Output, what is said where it fails, and the lines of usage.
ghost use Rattle.std.specs.Prelude.{◌≡◌, OnOk};
ghost use Rattle.std.specs.Io.KnownBytes.{Appends};
ghost use Rattle.lines.specs.Remarks.{remark_line};
ghost use Rattle.files.specs.Writing.{made_text, AppendsStart, IsWhole, WritesBoth};

use crate::Files;
use lines::{Program, Remark};
use std::io::Write;
use streams::{WriteFailed, write_all};

// Writes text that was made, of so many bytes. Text that has no room is not written, which is a failure too.
pub fn write_made<W: Write>(
    output: &mut W,
    made: Option<usize>,
    text: &[u8],
) -> Result<(), WriteFailed>
    ensures whole { OnOk result (IsWhole made text.now) }
    ensures all { OnOk result (Appends (W.contents output.old) (W.contents output.new) (made_text made text.now)) }
    ensures start { AppendsStart (W.contents output.old) (W.contents output.new) (made_text made text.now) }
{
    match made {
        Some(size) if size <= text.len() => write_all(output, &text[..size]),
        _ => Err(WriteFailed),
    }
}

// Says one thing, a line.
pub fn say<E: Write>(program: Program, remark: Remark, errors: &mut E)
    ensures { AppendsStart (E.contents errors.old) (E.contents errors.new) (remark_line program remark) }
{
    let mut text = [0u8; lines::REMARK_BYTES];
    let made = lines::remark_line(program, remark, &mut text);
    let _ = write_made(errors, made, &text);
}

impl<R, W: Write, E: Write> Files<R, W, E> {
    // Writes two texts that were made, the output and what there is to say. Where the output cannot be written, that is said before.
    pub fn write_both(
        &mut self,
        program: Program,
        output: Option<usize>,
        text: &[u8],
        told: Option<usize>,
        said: &[u8],
    )
        ensures input { self.new.input ≡ self.old.input }
        ensures both { WritesBoth program output text.now (made_text told said.now)
            (W.contents self.old.output) (E.contents self.old.errors) (W.contents self.new.output) (E.contents self.new.errors) }
    {
        if let Err(WriteFailed) = write_made(&mut self.output, output, text) {
            say(program, Remark::NoOutput, &mut self.errors);
        }
        let _ = write_made(&mut self.errors, told, said);
    }
}

fn usage(program: Program) -> &'static str {
    match program {
        Program::RunTrace => {
            "usage: ./run runtrace < TRACE\n\
             Runs a trace from all zero and prints what each cycle shows, the state and how the run ended.\n\
             The trace is read on standard input. There are no arguments.\n"
        }
        Program::PackTrace => {
            "usage: ./run packtrace < TEXT > TRACE\n\
             Makes a trace of a text of hex words, three to a line.\n\
             The text is read on standard input. There are no arguments.\n"
        }
        Program::UnpackTrace => {
            "usage: ./run unpacktrace < TRACE\n\
             Prints the words of a trace as hex text, a cycle to a line.\n\
             The trace is read on standard input. There are no arguments.\n"
        }
        Program::ListTrace => {
            "usage: ./run listtrace < TRACE\n\
             Prints the instructions of a trace by their names, a cycle to a line.\n\
             The trace is read on standard input. There are no arguments.\n"
        }
        Program::ReadList => {
            "usage: ./run readlist < TEXT\n\
             Prints the word of each line of a listing in hex, or why the line cannot be read.\n\
             The text is read on standard input. There are no arguments.\n"
        }
    }
}

// How a program is used, in three lines.
pub fn print_usage<W: Write>(program: Program, output: &mut W) {
    let _ = write_all(output, usage(program).as_bytes());
}
