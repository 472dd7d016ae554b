// Decodes every 16-bit word and prints what the answers were: how many words are accepted, refused with each number, have an
// I operand, belong to each family, and come back as the same word when their instruction is encoded.
#![tactic(auto)]

use isa::Named;
use refusals::Refusal;
use std::io;
use streams::Regardless;

// The families, in the order of document 01's list and of their enum.
const FAMILIES: [&str; 27] = [
    "TOR1", "ROTR1", "ROTR2", "ROTC", "ROTM", "SOR", "BOR2", "TOR2", "SHFTR", "CRCF", "CRCR",
    "PRT1", "PRT2", "PRT3", "SVSTR", "SONR", "TONR", "SHFTNR", "BOR1", "BONR", "ROTNR", "PRTNR",
    "SVSTNR", "SETST", "RSTST", "TEST", "NOOP",
];

// The refusals of a word.
const REFUSALS: [Refusal; 3] = [Refusal::Unlisted, Refusal::AccTwice, Refusal::BitTooHigh];

#[derive(Clone, Copy)]
struct Tally {
    accepted: u32,
    refused: [u32; 3],
    immediate: u32,
    back: u32,
    families: [u32; 27],
}

// One more. There are 65,536 words, so a count never wraps. (every_plan has the same line, which is too short for a crate of both.)
fn count(n: &mut u32) {
    *n = n.wrapping_add(1);
}

impl Tally {
    fn count_accepted(&mut self, named: Named, word: u16) {
        count(&mut self.accepted);
        count(&mut self.families[named.family as usize]);
        if isa::takes_immediate(word) {
            count(&mut self.immediate);
        }
        if isa::encode(named) == Ok(word) {
            count(&mut self.back);
        }
    }

    fn count_refused(&mut self, refusal: Refusal) {
        for (known, n) in REFUSALS.iter().zip(self.refused.iter_mut()) {
            if *known == refusal {
                count(n);
            }
        }
    }

    fn count_word(&mut self, word: u16) {
        match isa::decode(word) {
            Ok(named) => self.count_accepted(named, word),
            Err(refusal) => self.count_refused(refusal),
        }
    }
}

fn print_tally(rt: &impl Print, tally: &Tally) -> io::Result<()> {
    println!(rt; "accepted {}", tally.accepted)?;
    for (refusal, n) in REFUSALS.iter().zip(&tally.refused) {
        println!(rt; "refused {} {n}", u8::from(*refusal))?;
    }
    println!(rt; "immediate {}", tally.immediate)?;
    for (name, n) in FAMILIES.iter().zip(&tally.families) {
        println!(rt; "{name} {n}")?;
    }
    println!(rt; "back {}", tally.back)
}

fn print_words(rt: &impl Print) -> io::Result<()> {
    let mut tally = Tally {
        accepted: 0,
        refused: [0; 3],
        immediate: 0,
        back: 0,
        families: [0; 27],
    };
    for word in 0..=u16::MAX {
        tally.count_word(word);
    }
    print_tally(rt, &tally)
}

// Where something cannot be printed there is nobody to tell, and what follows is printed all the same.
fn main(rt: HostRuntime) {
    let _ = print_words(&Regardless { to: &rt });
}
