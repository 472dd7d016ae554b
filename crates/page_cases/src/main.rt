// Reads traces on standard input and prints the page of each, as runtrace would. A case is a header line "LLLLLL ZZZZZZ" and a payload of
// L bytes; the trace is the payload and Z zeros after it.
#![tactic(auto)]

ghost use Rattle.std.specs.Prelude.{◌≤◌};
ghost use Rattle.page_cases.specs.declared.TheConstants.{MOST};

use std::io;
use std::io::Read;
use streams::{Regardless, decimal, fill};

// The bytes of a header line, the line feed too.
const HEADER: usize = 14;

// The most bytes that are kept of an input, and the most cases.
const MOST: usize = trace::INPUT_BYTES - 1;

const CASES: usize = 10000;

// The bytes of a case's payload and of its trace.
#[derive(Clone, Copy)]
struct Case {
    payload: usize,
    length: usize,
    ghost payload_fits: { payload ≤ length },
    ghost length_fits: { length ≤ MOST },
}

// The case of a header, if it has one.
fn case_of(header: &[u8; HEADER]) -> Option<Case> {
    let payload = decimal(&header[..6])?;
    let length = payload.checked_add(decimal(&header[7..13])?)?;
    if header[6] != b' ' || header[13] != b'\n' || MOST < length {
        return None;
    }
    Some(Case { payload, length })
}

// Prints the page of a trace.
fn print_page(rt: &impl Print, trace: &[u8]) -> io::Result<()> {
    let mut text = [0; pages::PAGE_BYTES];
    let mut said = [0; lines::REMARK_BYTES];
    let written = pages::run_trace(trace, &mut text, &mut said);
    let Some(size) = written.output else {
        return println!(rt; "no room");
    };
    match text.get(..size) {
        Some(page) => rt.write_all(page),
        None => println!(rt; "too long"),
    }
}

// Ends where the input does, or with "bad input" where what comes next is no case. (block_counts goes on so too, over cases of another kind.)
fn print_pages<R: Read>(rt: &impl Print, input: &mut R) -> io::Result<()> {
    for cases in 0..CASES {
        let mut header = [0; HEADER];
        if fill(input, &mut header).unwrap_or_else(|failed| failed.bytes) == 0 {
            return Ok(());
        }
        let Some(case) = case_of(&header) else {
            break;
        };
        let mut zeros = [0; MOST];
        if input.read_exact(&mut zeros[..case.payload]).is_err() {
            break;
        }
        println!(rt; "case {}", cases + 1)?;
        print_page(rt, &zeros[..case.length])?;
    }
    println!(rt; "bad input")
}

// Where something cannot be printed there is nobody to tell, and what follows is printed all the same.
fn main(rt: HostRuntime) {
    let _ = print_pages(&Regardless { to: &rt }, &mut rt.stdin());
}
