// Reads single cycles on standard input, one per line, and prints what each does. A line has seven words of four capital hex digits:
// the waiting word (0000 for none), ACC, D and the status at the start, then the lines, the Y input and the pins.
#![tactic(auto)]

use cases::{RAM, print_changed, print_core, word};
use machine::{Registers, Report, Words};
use std::io;
use std::io::Read;
use streams::{Regardless, fill};

// The bytes of a line, its line feed too.
const LINE: usize = 35;

// A blank and a digit, or "-" where it is not below the limit.
fn print_digit(rt: &impl Print, x: u8, limit: u8) -> io::Result<()> {
    if x < limit {
        print!(rt; " {x:X}")
    } else {
        print!(rt; " -")
    }
}

fn print_report(rt: &impl Print, report: Report) -> io::Result<()> {
    print!(rt; " {:04X} {:04X}", report.y, report.mask)?;
    print_digit(rt, report.ct, 2)?;
    print_digit(rt, report.t, 16)?;
    print!(rt; " {} ", u8::from(report.completed.is_some()))
}

fn print_registers(rt: &impl Print, registers: Registers) -> io::Result<()> {
    print_core(rt, registers)?;
    print_changed(rt, &registers.ram, " ", "")?;
    if registers.ram == RAM {
        print!(rt; " -")?;
    }
    Ok(())
}

// Prints the case of a line.
fn print_case(rt: &impl Print, line: &[u8; LINE]) -> io::Result<()> {
    let machine = cases::start(
        word(&line[..4]),
        word(&line[5..9]),
        word(&line[10..14]),
        word(&line[15..19]),
    );
    let words = Words {
        lines: word(&line[20..24]),
        input: word(&line[25..29]),
        pins: word(&line[30..34]),
    };
    let turn = machine::cycle(machine, words);
    rt.write_all(&line[..LINE - 1])?;
    print!(rt; " >")?;
    match turn.answer {
        Ok(report) => {
            print_report(rt, report)?;
            print_registers(rt, turn.machine.registers)?;
        }
        Err(refusal) => print!(rt; " refused {}", u8::from(refusal))?,
    }
    println!(rt)
}

fn print_cases<R: Read>(rt: &impl Print, input: &mut R) -> io::Result<()> {
    let mut text = [0; 8192];
    let length = fill(input, &mut text).unwrap_or_else(|failed| failed.bytes);
    let (lines, _) = text[..length].as_chunks::<LINE>();
    for line in lines {
        print_case(rt, line)?;
    }
    Ok(())
}

// Where something cannot be printed there is nobody to tell, and what follows is printed all the same.
fn main(rt: HostRuntime) {
    let _ = print_cases(&Regardless { to: &rt }, &mut rt.stdin());
}
