// Reads cases for the check, the reader and the writer of trace blocks on standard input and prints what each call answers and fills.
// A case is a header line "K LLLLLL ZZZZZZ RRRRRR" and a payload of L bytes. K is C, R or W for check, read or write; the input is the
// payload and Z zeros after it, for W as words, low byte first; R is the room of the lent output, in words for R and in bytes for W.
#![tactic(auto)]

mod printing; // printing.rt: what a call answered, as lines

ghost use Rattle.std.specs.Prelude.{◌≤◌};
ghost use Rattle.block_counts.specs.declared.TheConstants.{MOST};

use printing::{Unit, print_answer};
use std::fmt::{Display, Formatter};
use std::io::Read;
use std::{fmt, io};
use streams::{Regardless, decimal, fill};

// The bytes of a header line, the line feed too.
const HEADER: usize = 23;

// The most bytes of an input, units of lent output, and cases.
const MOST: usize = 32768;

#[derive(Clone, Copy)]
enum Kind {
    Check,
    Read,
    Write,
}

// A kind by its letter.
impl Display for Kind {
    fn fmt<W: fmt::Write>(&self, f: &mut Formatter<W>) -> fmt::Result {
        match self {
            Kind::Check => write!(f, "C"),
            Kind::Read => write!(f, "R"),
            Kind::Write => write!(f, "W"),
        }
    }
}

// What a header asks for: a call, the bytes of the payload and of the input, and the room of the output.
#[derive(Clone, Copy)]
struct Case {
    kind: Kind,
    payload: usize,
    length: usize,
    room: usize,
    ghost payload_fits: { payload ≤ length },
    ghost length_fits: { length ≤ MOST },
    ghost room_fits: { room ≤ MOST },
}

// The kind of a letter, if there are cases of it with such an input and such a room.
fn kind_of(letter: u8, length: usize, room: usize) -> Option<Kind> {
    match letter {
        b'C' if room == 0 => Some(Kind::Check),
        b'R' => Some(Kind::Read),
        b'W' if length % 2 == 0 => Some(Kind::Write),
        _ => None,
    }
}

// The number that six digits after a blank tell.
fn number(column: &[u8]) -> Option<usize> {
    decimal(column.strip_prefix(b" ")?)
}

// The case of a header, if it has one.
fn case_of(header: &[u8; HEADER]) -> Option<Case> {
    let payload = number(&header[1..8])?;
    let length = payload.checked_add(number(&header[8..15])?)?;
    let room = number(&header[15..22])?;
    if header[22] != b'\n' || MOST < length || MOST < room {
        return None;
    }
    Some(Case {
        kind: kind_of(header[0], length, room)?,
        payload,
        length,
        room,
    })
}

fn read_case(rt: &impl Print, case: Case, input: &[u8]) -> io::Result<()> {
    let mut lent = [u16::FILL; MOST];
    let answer = trace::read(input, &mut lent[..case.room]);
    print_answer(rt, answer, &lent[..case.room])
}

fn write_case(rt: &impl Print, case: Case, input: &[u8]) -> io::Result<()> {
    let mut words = [0; MOST];
    let mut lent = [u8::FILL; MOST];
    for (word, bytes) in words.iter_mut().zip(input.chunks_exact(2)) {
        *word = u16::from_le_bytes([bytes[0], bytes[1]]);
    }
    let answer = trace::write(&words[..case.length / 2], &mut lent[..case.room]);
    print_answer(rt, answer, &lent[..case.room])
}

fn run_case(rt: &impl Print, number: usize, case: Case, input: &[u8]) -> io::Result<()> {
    print!(rt; "{number} {} {}", case.kind, case.length)?;
    match case.kind {
        Kind::Check => println!(rt; "\ncheck {:04X}", trace::check(input)),
        Kind::Read => read_case(rt, case, input),
        Kind::Write => write_case(rt, case, input),
    }
}

// Prints the number of cases at the end, or "bad input" where what comes next is no case.
fn print_cases<R: Read>(rt: &impl Print, input: &mut R) -> io::Result<()> {
    for cases in 0..MOST {
        let mut header = [0; HEADER];
        if fill(input, &mut header).unwrap_or_else(|failed| failed.bytes) == 0 {
            return println!(rt; "cases {cases}");
        }
        let Some(case) = case_of(&header) else {
            break;
        };
        let mut zeros = [0; MOST];
        if input.read_exact(&mut zeros[..case.payload]).is_err() {
            break;
        }
        run_case(rt, cases + 1, case, &zeros[..case.length])?;
    }
    println!(rt; "bad input")
}

// Where something cannot be printed there is nobody to tell, and what follows is printed all the same.
fn main(rt: HostRuntime) {
    let _ = print_cases(&Regardless { to: &rt }, &mut rt.stdin());
}
