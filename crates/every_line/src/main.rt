// Prints the line of every 16-bit word, reads it back as it is, with more blanks and in the other mode, and prints how many answers of
// each kind there were; then the same for all data, and what some single lines give.
#![tactic(auto)]

ghost use Rattle.std.specs.Prelude.{◌≤◌, length, IfSome};

use refusals::{Refusal, Refused};
use std::fmt::{Display, Formatter};
use std::{fmt, io};
use streams::Regardless;

// Room for a line that has each blank twice and one at both ends.
const SPACED_BYTES: usize = 64;

// The bit of a word that tells its mode.
const MODE: u16 = 0x8000;

// The bit that field A has for the name PRZ, 10, and has not for PRA, 8.
const ZERO_NOT_ACC: u16 = 0x0400;

// How often something came. That is at most 65,536 times, and never wraps.
#[derive(Clone, Copy, Default)]
struct Count(u32);

impl Count {
    fn more(&mut self) {
        self.0 = self.0.wrapping_add(1);
    }
}

impl Display for Count {
    fn fmt<W: fmt::Write>(&self, f: &mut Formatter<W>) -> fmt::Result {
        write!(f, "{}", self.0)
    }
}

#[derive(Clone, Copy, Default)]
struct Tally {
    printed: Count,
    word_seven: Count,
    word_eight: Count,
    word_nine: Count,
    back: Count,
    spaced_back: Count,
    line_seven: Count,
    line_eight: Count,
    line_nine: Count,
    turned: Count,
    astray: Count,
    columns: Count,
    data_back: Count,
}

// Turns the mode letter, which stands after the first blank.
fn turn_mode(line: &mut [u8]) {
    if let Some(mode) = line.iter_mut().skip_while(|byte| **byte != b' ').nth(1) {
        *mode = if *mode == b'B' { b'W' } else { b'B' };
    }
}

// Makes the name PRZ of a line the name PRA.
fn name_acc(line: &mut [u8]) {
    if let Some(letter) = line.iter_mut().find(|byte| **byte == b'Z') {
        *letter = b'A';
    }
}

// A line written over blanks, with one before it, one after it and a second one at each of its own, if that has room.
fn spread<'a>(line: &[u8], blanks: &'a mut [u8]) -> Option<&'a [u8]>
    ensures { IfSome result (λ spaced. length spaced.now ≤ length blanks.old) }
{
    let mut at: usize = 1;
    for byte in line {
        *blanks.get_mut(at)? = *byte;
        at += if *byte == b' ' { 2 } else { 1 };
    }
    blanks.get(..=at)
}

fn comes_back_spaced(line: &[u8], word: u16) -> bool {
    let mut blanks = [b' '; SPACED_BYTES];
    match spread(line, &mut blanks) {
        Some(spaced) => listing::word_of(spaced) == Ok(word),
        None => false,
    }
}

impl Tally {
    fn count_back(&mut self, word: u16, line: &[u8]) {
        self.printed.more();
        if listing::word_of(line) == Ok(word) {
            self.back.more();
        }
        if comes_back_spaced(line, word) {
            self.spaced_back.more();
        }
    }

    // Counts what a changed line gives: the word that is meant, or a refusal. No refusal but these three is right, and no column but 0.
    fn count_changed(&mut self, meant: u16, line: &[u8]) {
        match listing::word_of(line) {
            Ok(found) if found == meant => self.turned.more(),
            Ok(_) => self.astray.more(),
            Err(Refused { refusal, index }) => {
                match refusal {
                    Refusal::Unlisted => self.line_seven.more(),
                    Refusal::AccTwice => self.line_eight.more(),
                    Refusal::BitTooHigh => self.line_nine.more(),
                    _ => self.astray.more(),
                }
                if index != 0 {
                    self.columns.more();
                }
            }
        }
    }

    // A word that gets 8 has no line: the line that means it is made of the line of a word that has PRZ for PRA.
    fn count_eight(&mut self, word: u16) {
        let mut line = [0; listing::LINE_BYTES];
        let Ok(size) = listing::line_of(word | ZERO_NOT_ACC, &mut line) else {
            return;
        };
        if let Some(line) = line.get_mut(..size) {
            name_acc(line);
            self.count_changed(word, line);
        }
    }

    fn count_word(&mut self, word: u16) {
        let mut line = [0; listing::LINE_BYTES];
        match listing::line_of(word, &mut line) {
            Ok(size) => {
                if let Some(line) = line.get_mut(..size) {
                    self.count_back(word, line);
                    turn_mode(line);
                    self.count_changed(word ^ MODE, line);
                }
            }
            Err(Refusal::Unlisted) => self.word_seven.more(),
            Err(Refusal::AccTwice) => {
                self.word_eight.more();
                self.count_eight(word);
            }
            Err(Refusal::BitTooHigh) => self.word_nine.more(),
            Err(_) => {}
        }
    }

    fn count_data(&mut self, operand: u16) {
        let mut line = [0; listing::DATA_BYTES];
        let printed = listing::data_line(operand, &mut line);
        if printed == Ok(line.len()) && listing::data_of(&line) == Ok(operand) {
            self.data_back.more();
        }
    }

    fn print(&self, rt: &impl Print) -> io::Result<()> {
        println!(rt; "printed {}", self.printed)?;
        println!(rt; "word refused 7 {}", self.word_seven)?;
        println!(rt; "word refused 8 {}", self.word_eight)?;
        println!(rt; "word refused 9 {}", self.word_nine)?;
        println!(rt; "back {}", self.back)?;
        println!(rt; "spaced back {}", self.spaced_back)?;
        println!(rt; "line refused 7 {}", self.line_seven)?;
        println!(rt; "line refused 9 {}", self.line_nine)?;
        println!(rt; "turned {}", self.turned)?;
        println!(rt; "astray {}", self.astray)?;
        println!(rt; "line refused 8 {}", self.line_eight)?;
        println!(rt; "columns {}", self.columns)?;
        println!(rt; "data back {}", self.data_back)
    }
}

// A line between quotes, and what it gives: a word, or a refusal and its column.
fn print_read(rt: &impl Print, line: &str, read: Result<u16, Refused>) -> io::Result<()> {
    print!(rt; "'{line}' ")?;
    match read {
        Ok(word) => println!(rt; "{word:04X}"),
        Err(Refused { refusal, index }) => println!(rt; "{} {index}", u8::from(refusal)),
    }
}

fn show_lines(rt: &impl Print) -> io::Result<()> {
    for line in [
        "",
        "SOR",
        "SORX W MOVE SOSE 7",
        "SOR X MOVE SOSE 7",
        "SOR W MOVE SOA 7",
        "SOR W MOVE SOSE",
        "SOR W MOVE SOSE 32",
        "SOR W MOVE SOSE 07",
        "SOR W MOVE SOSE 7 X",
        "SOR W MOVE SOSE 07 X",
        "NOOP W",
        "NOOP W X",
        "PRTNR B PRA PRTA NRY",
        "BOR1 B 8 SETNR 0",
        "  SOR  W MOVE SOSE 7 ",
    ] {
        print_read(rt, line, listing::word_of(line.as_bytes()))?;
    }
    Ok(())
}

fn show_data_lines(rt: &impl Print) -> io::Result<()> {
    for line in ["0F1A", "0f1A", "0F1", "0F1A 0", ""] {
        print!(rt; "data ")?;
        print_read(rt, line, listing::data_of(line.as_bytes()))?;
    }
    Ok(())
}

fn print_lines(rt: &impl Print) -> io::Result<()> {
    let mut tally = Tally::default();
    for word in 0..=u16::MAX {
        tally.count_word(word);
        tally.count_data(word);
    }
    tally.print(rt)?;
    show_lines(rt)?;
    show_data_lines(rt)
}

// Where something cannot be printed there is nobody to tell, and what follows is printed all the same.
fn main(rt: HostRuntime) {
    let _ = print_lines(&Regardless { to: &rt });
}
