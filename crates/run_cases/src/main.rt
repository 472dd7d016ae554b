// Reads whole runs on standard input and prints what each does: its reports, the state it ends in, its answer, and what it left alone.
// A case is a header line (waiting word, ACC, D, status, budget, room, how many words, how many lines) and its pattern lines, in hex.
#![tactic(auto)]

use cases::{print_changed, print_core, word};
use machine::Machine;
use run::{Ending, Ran};
use std::io;
use std::io::Read;
use streams::{Regardless, fill, hex};

// The bytes of a header line and of a pattern line, the line feed too.
const HEADER: usize = 52;

const PATTERN: usize = 15;

// The bytes of a word in a pattern line, with the blank or the line feed after it.
const COLUMN: usize = 5;

// The reports that are printed before the rest is passed over, and the words of one.
const SHOWN: usize = 6;

const REPORT: usize = 4;

// A run: where it starts, its budget, the room for reports, and how many words it has, which are those of the patterns over and over.
#[derive(Clone, Copy)]
struct Case<'a> {
    start: Machine,
    budget: u64,
    room: usize,
    count: usize,
    patterns: &'a [u8],
}

// The case that a text begins with, and the rest of the text.
fn first_case(text: &[u8]) -> Option<(Case<'_>, &[u8])> {
    let (header, rest) = text.split_at_checked(HEADER)?;
    let lines = usize::from(word(&header[47..51]));
    if lines == 0 {
        return None;
    }
    let (patterns, rest) = rest.split_at_checked(PATTERN * lines)?;
    let case = Case {
        start: cases::start(
            word(&header[..4]),
            word(&header[5..9]),
            word(&header[10..14]),
            word(&header[15..19]),
        ),
        budget: hex(&header[20..36]),
        room: usize::from(word(&header[37..41])),
        count: usize::from(word(&header[42..46])),
        patterns,
    };
    Some((case, rest))
}

// The words of the pattern lines, over and over until all places are filled.
fn repeat(patterns: &[u8], words: &mut [u16]) {
    for (place, column) in words.iter_mut().zip(patterns.chunks(COLUMN).cycle()) {
        if column.len() == COLUMN {
            *place = word(&column[..4]);
        }
    }
}

// What stands at a place of the report buffer before every run.
fn mark(place: usize) -> u16 {
    (place & 0xFFFF) as u16 ^ 0x5A5A
}

fn mark_all(buffer: &mut [u16]) {
    for (place, word) in buffer.iter_mut().enumerate() {
        *word = mark(place);
    }
}

// Where the buffer from a place on has not what stood there before the run, if anywhere.
fn touched(buffer: &[u16], from: usize) -> Option<usize> {
    (from..buffer.len()).find(|place| buffer[*place] != mark(*place))
}

fn print_untouched(rt: &impl Print, buffer: &[u16], filled: usize) -> io::Result<()> {
    match touched(buffer, filled) {
        Some(place) => println!(rt; "touched at {place}"),
        None => println!(rt; "untouched from {filled}"),
    }
}

fn print_report(rt: &impl Print, report: &[u16]) -> io::Result<()> {
    if let [y, mask, ct, t] = report {
        println!(rt; "{y:04X} {mask:04X} {ct:04X} {t:04X}")?;
    }
    Ok(())
}

// The first six reports, and the last one where there are more.
fn print_reports(rt: &impl Print, reports: &[u16]) -> io::Result<()> {
    for report in reports.chunks(REPORT).take(SHOWN) {
        print_report(rt, report)?;
    }
    if let Some(last) = reports.chunks(REPORT).skip(SHOWN).last() {
        println!(rt; "...")?;
        print_report(rt, last)?;
    }
    Ok(())
}

fn sum_of(reports: &[u16]) -> u16 {
    reports
        .iter()
        .fold(0u16, |sum, word| sum.wrapping_mul(31).wrapping_add(*word))
}

fn print_state(rt: &impl Print, machine: Machine) -> io::Result<()> {
    print_core(rt, machine.registers)?;
    println!(rt)?;
    print_changed(rt, &machine.registers.ram, "", "\n")
}

fn print_ending(rt: &impl Print, ending: Ending) -> io::Result<()> {
    match ending {
        Ending::Done => print!(rt; "done"),
        Ending::Stopped => print!(rt; "stopped"),
        Ending::Refused(number, index) => print!(rt; "refused {number} at {index}"),
    }
}

// What a run gave, with the whole of the buffer whose first part was lent to it.
fn print_run(rt: &impl Print, ran: Ran, buffer: &[u16]) -> io::Result<()> {
    let filled = ran.accepted.saturating_mul(REPORT);
    let Some(reports) = buffer.get(..filled) else {
        return println!(rt; "more accepted than there is room for");
    };
    print_reports(rt, reports)?;
    println!(rt; "sum {:04X}", sum_of(reports))?;
    print_state(rt, ran.machine)?;
    print_ending(rt, ran.ending)?;
    println!(rt; " accepted {} completed {}", ran.accepted, ran.completed)?;
    print_untouched(rt, buffer, filled)
}

// What the run of a case gives, if there is room for its words and reports.
fn run_case(case: Case<'_>, words: &mut [u16], buffer: &mut [u16]) -> Option<Ran> {
    let words = words.get_mut(..case.count)?;
    repeat(case.patterns, words);
    mark_all(buffer);
    let lent = buffer.get_mut(..case.room)?;
    Some(run::run(case.start, words, case.budget, lent))
}

fn print_runs<R: Read>(rt: &impl Print, input: &mut R) -> io::Result<()> {
    let mut text = [0; 14336];
    let mut words = [0; 12297];
    let mut buffer = [0; 16400];
    let length = fill(input, &mut text).unwrap_or_else(|failed| failed.bytes);
    let mut rest = &text[..length];
    for number in 1..=length / HEADER {
        let Some((case, after)) = first_case(rest) else {
            break;
        };
        println!(rt; "case {number}")?;
        if let Some(ran) = run_case(case, &mut words, &mut buffer) {
            print_run(rt, ran, &buffer)?;
        }
        rest = after;
    }
    Ok(())
}

// Where something cannot be printed there is nobody to tell, and what follows is printed all the same.
fn main(rt: HostRuntime) {
    let _ = print_runs(&Regardless { to: &rt }, &mut rt.stdin());
}
