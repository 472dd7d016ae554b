// Holds the examples to what is expected of them. Its arguments come in threes: what is expected, a text, and a file of it: "page" of the
// run of its trace, or "words" of its cycles. Where a text has bad lines, what they lack is expected instead. A text is packed, and its trace
// run or unpacked, by the calls that the programs make.
#![tactic(auto)]

ghost use Rattle.std.specs.Prelude.{◌<◌, ◌≤◌, length};

use pages::{PACKED_WORDS, Written};
use std::io;
use std::rt::{Env, Files};
use streams::{Regardless, argument, fill, has_argument, open};
use text::Reader;

// The bytes of a file's name, and the most arguments.
const NAME_BYTES: usize = 128;

const MOST_ARGUMENTS: usize = 1000;

// The most bytes that are read of a file.
const FILE_BYTES: usize = 65536;

// What is expected after a text that was made, if the text stands in front.
fn after_text<'a>(expected: &'a [u8], made: Option<usize>, text: &[u8]) -> Option<&'a [u8]> {
    expected.strip_prefix(text.get(..made?)?)
}

// What is expected after the text that a call makes of a trace: a page, or words, which are shorter. (As in printing, the call
// comes in a closure.)
fn after_made<'a, F: Fn(&[u8], &mut [u8], &mut [u8]) -> Written>(
    expected: &'a [u8],
    make: F,
    trace: &[u8],
) -> Option<&'a [u8]>
    requires { F.IsAlwaysCallable make }
{
    let mut text = [0; pages::PAGE_BYTES];
    let mut said = [0; lines::REMARK_BYTES];
    let written = make(trace, &mut text, &mut said);
    after_text(expected, written.output, &text)
}

// The reader after some lines, whether one of them is bad, and what is expected after what is said of them.
#[derive(Clone, Copy)]
struct Said<'a> {
    reader: Reader,
    bad: bool,
    expected: &'a [u8],
}

// A text has only its first twenty bad lines named, and here all are held to what is expected: the reader knows of none before each line.
fn after_line<'a>(
    before: Said<'a>,
    line: &[u8],
    words: &mut [u16; PACKED_WORDS],
) -> Option<Said<'a>> {
    let mut said = [0; pages::SAID_BYTES];
    let unknowing = Reader {
        faults: 0,
        ..before.reader
    };
    let taken = pages::take_text(unknowing, line, words, &mut said);
    Some(Said {
        reader: taken.reader,
        bad: before.bad || taken.reader.faults > 0,
        expected: after_text(before.expected, taken.said, &said)?,
    })
}

// Takes a text line by line.
fn after_lines<'a>(
    expected: &'a [u8],
    text: &[u8],
    words: &mut [u16; PACKED_WORDS],
) -> Option<Said<'a>> {
    let mut said = Said {
        reader: text::start(),
        bad: false,
        expected,
    };
    for line in text.split_inclusive(|byte| *byte == b'\n') {
        said = after_line(said, line, words)?;
    }
    Some(said)
}

// What is expected after what a text comes to: its faults, or what its trace gives.
fn after_all<'a>(expected: &'a [u8], kind: u8, text: &[u8]) -> Option<&'a [u8]> {
    let mut words = [0; PACKED_WORDS];
    let mut blocks = [0; trace::TRACE_BYTES];
    let mut said = [0; pages::SAID_BYTES];
    let lines = after_lines(expected, text, &mut words)?;
    let reader = Reader {
        faults: u64::from(lines.bad),
        ..lines.reader
    };
    let written = pages::end_text(reader, &mut words, &mut blocks, &mut said);
    let expected = after_text(lines.expected, written.said, &said)?;
    if lines.bad || written.said != Some(0) {
        return Some(expected);
    }
    let trace = blocks.get(..written.output?)?;
    match kind {
        b'w' => after_made(
            expected,
            |bytes, text, said| pages::unpack_trace(bytes, text, said),
            trace,
        ),
        _ => after_made(
            expected,
            |bytes, text, said| pages::run_trace(bytes, text, said),
            trace,
        ),
    }
}

// Reads the file that an argument names, as far as it can be read, and answers how long that is.
fn read_file(rt: &(impl Env + Files), place: usize, bytes: &mut [u8]) -> usize
    ensures { result ≤ length bytes.new }
{
    let mut name = [0; NAME_BYTES];
    let n = argument(rt, place, &mut name).unwrap_or(0);
    match open(rt, &name[..n]) {
        Some(mut file) => fill(&mut file, bytes).unwrap_or_else(|failed| failed.bytes),
        None => 0,
    }
}

// Whether what comes of the text is all of what is expected, and that is something. The kind is the first byte of its argument, which is there
// also where the rest has no room.
fn holds(rt: &(impl Env + Files), first: usize) -> Option<bool>
    requires { first < 1000 }
{
    let mut kind = [0; 1];
    let mut text = [0; FILE_BYTES];
    let mut expected = [0; FILE_BYTES];
    let _ = argument(rt, first, &mut kind);
    let length = read_file(rt, first + 1, &mut text);
    let end = read_file(rt, first + 2, &mut expected);
    let rest = after_all(&expected[..end], kind[0], &text[..length])?;
    Some(end > 0 && rest.is_empty())
}

// Prints the name of the text, and whether it holds.
fn print_case(to: &impl Print, rt: &(impl Env + Files), first: usize) -> io::Result<()>
    requires { first < 1000 }
{
    let mut name = [0; NAME_BYTES];
    let n = argument(rt, first + 1, &mut name).unwrap_or(0);
    to.write_all(&name[..n])?;
    match holds(rt, first) {
        Some(true) => println!(to; " as expected"),
        _ => println!(to; " NOT as expected"),
    }
}

fn print_examples(to: &impl Print, rt: &(impl Env + Files)) -> io::Result<()> {
    for first in (1..MOST_ARGUMENTS).step_by(3) {
        if !has_argument(rt, first + 2) {
            break;
        }
        print_case(to, rt, first)?;
    }
    Ok(())
}

// Where something cannot be printed there is nobody to tell, and what follows is printed all the same.
fn main(rt: HostRuntime) {
    let _ = print_examples(&Regardless { to: &rt }, &rt);
}
