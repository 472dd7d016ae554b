// Plans every accepted word and prints how many plans there are for each operation, each source in each place, each destination, each
// kind of showing and each chooser; how many name I; and how many write RAM and do not name I.
#![tactic(auto)]

ghost use Rattle.std.specs.Prelude.{◌<◌};

use plan::{Chooser, Destination, Task, Work};
use std::io;
use streams::Regardless;

// The operations, in the order in which they are counted.
const OPERATIONS: [&str; 42] = [
    "SUBR",
    "SUBRC",
    "SUBS",
    "SUBSC",
    "ADD",
    "ADDC",
    "AND",
    "NAND",
    "EXOR",
    "NOR",
    "OR",
    "EXNOR",
    "MOVE",
    "COMP",
    "INC",
    "NEG",
    "SETN",
    "RSTN",
    "TSTN",
    "LD2N",
    "LDC2N",
    "A2N",
    "S2N",
    "SHUPZ",
    "SHUP1",
    "SHUPL",
    "SHDNZ",
    "SHDN1",
    "SHDNL",
    "SHDNC",
    "SHDNOV",
    "ROTATE",
    "MERGE",
    "COMPARE",
    "PRIORITIZE",
    "CRCF",
    "CRCR",
    "SAVE",
    "SETST",
    "RSTST",
    "TEST",
    "NOOP",
];

// The variants of the enums of plan, in their order.
const SOURCES: [&str; 7] = ["ZERO", "RAM", "ACC", "D", "I", "D0E", "DSE"];

const DESTINATIONS: [&str; 5] = ["Y", "ACC", "RAM", "STATUS", "BOTH"];

const SHOWN: [&str; 3] = ["WIDTH", "WHOLE", "NOTHING"];

const CHOOSERS: [&str; 2] = ["PINS", "INSTRUCTION"];

#[derive(Clone, Copy)]
struct Tally {
    operations: [u32; 42],
    first: [u32; 7],
    second: [u32; 7],
    mask: [u32; 7],
    destinations: [u32; 5],
    shown: [u32; 3],
    choosers: [u32; 2],
    immediate: u32,
    ram: u32,
}

// One more. There are 65,536 words, so a count never wraps. (every_word has the same line, which is too short for a crate of both.)
fn count(n: &mut u32) {
    *n = n.wrapping_add(1);
}

// Where an operation is counted.
fn place(task: Task) -> usize
    ensures { result < 42 }
{
    match task {
        Task::TwoOperand(kind) => kind as usize,
        Task::OneOperand(kind) => 12 + kind as usize,
        Task::Bit(kind) => 16 + kind as usize,
        Task::Shift(kind) => 23 + kind as usize,
        Task::Rotate => 31,
        Task::Merge => 32,
        Task::Compare => 33,
        Task::Prioritize => 34,
        Task::CrcForward => 35,
        Task::CrcReverse => 36,
        Task::SaveStatus => 37,
        Task::SetStatus(_) => 38,
        Task::ResetStatus(_) => 39,
        Task::TestStatus => 40,
        Task::NoOperation => 41,
    }
}

impl Tally {
    fn count_work(&mut self, work: Work) {
        count(&mut self.operations[place(work.task)]);
        count(&mut self.first[work.operands.first as usize]);
        count(&mut self.second[work.operands.second as usize]);
        count(&mut self.mask[work.operands.mask as usize]);
        count(&mut self.destinations[work.destination as usize]);
        count(&mut self.shown[work.shown as usize]);
        match work.chooser {
            Chooser::Pins => count(&mut self.choosers[0]),
            Chooser::Instruction(_) => count(&mut self.choosers[1]),
        }
        if plan::names_immediate(work) {
            count(&mut self.immediate);
        } else if work.destination == Destination::ToRam {
            count(&mut self.ram);
        }
    }
}

// A line for each count: what kind of count it is, its name and the count.
fn print_group(rt: &impl Print, kind: &str, names: &[&str], counts: &[u32]) -> io::Result<()> {
    for (name, n) in names.iter().zip(counts) {
        println!(rt; "{kind} {name} {n}")?;
    }
    Ok(())
}

fn print_tally(rt: &impl Print, tally: &Tally) -> io::Result<()> {
    print_group(rt, "operation", &OPERATIONS, &tally.operations)?;
    print_group(rt, "first", &SOURCES, &tally.first)?;
    print_group(rt, "second", &SOURCES, &tally.second)?;
    print_group(rt, "mask", &SOURCES, &tally.mask)?;
    print_group(rt, "destination", &DESTINATIONS, &tally.destinations)?;
    print_group(rt, "shown", &SHOWN, &tally.shown)?;
    print_group(rt, "chooser", &CHOOSERS, &tally.choosers)?;
    println!(rt; "immediate {}", tally.immediate)?;
    println!(rt; "ram {}", tally.ram)
}

fn print_plans(rt: &impl Print) -> io::Result<()> {
    let mut tally = Tally {
        operations: [0; 42],
        first: [0; 7],
        second: [0; 7],
        mask: [0; 7],
        destinations: [0; 5],
        shown: [0; 3],
        choosers: [0; 2],
        immediate: 0,
        ram: 0,
    };
    for word in 0..=u16::MAX {
        if let Ok(named) = isa::decode(word) {
            tally.count_work(plan::plan_for(named).work);
        }
    }
    print_tally(rt, &tally)
}

// Where something cannot be printed there is nobody to tell, and what follows is printed all the same.
fn main(rt: HostRuntime) {
    let _ = print_plans(&Regardless { to: &rt });
}
