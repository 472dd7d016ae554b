// The Am29C116: its state, and one cycle of it. `step` is the cycle with RAM in place, for whoever runs many; `cycle` takes a machine by value
// and gives it back by value.
#![tactic(auto)]

use isa::Named;
use plan::{Destination, Plan};
use refusals::Refusal;

mod pins; // pins.rt: the levels of a cycle's pins
mod judging; // judging.rt: refused, waiting or performed
mod stepping; // stepping.rt: what a cycle does when it is refused, waits, or performs an instruction
mod seeing; // seeing.rt: what an instruction sees
mod acting; // acting.rt: what it does
mod settling; // settling.rt: what is written
mod conditions; // conditions.rt: CT and T

ghost use Rattle.std.specs.Prelude.{◌≡◌};
ghost use Rattle.machine.specs.Judging.{may_start};
ghost use Rattle.machine.specs.Cycles.{cycle_of, turn_tells};
ghost use Rattle.machine.specs.Stepping.{machine_from, core_of, Steps};

// The word of an instruction with an I operand, between its two cycles. An enum of its own, because document 01 names this form.
#[derive(Clone, Copy)]
pub enum Waiting {
    Nothing,
    Held(u16),
}

#[derive(Clone, Copy)]
pub struct Registers {
    pub ram: [u16; 32],
    pub acc: u16,
    pub latch: u16,
    pub status: u8,
    pub waiting: Waiting,
}

// The registers but RAM.
#[derive(Clone, Copy)]
pub struct Core {
    pub acc: u16,
    pub latch: u16,
    pub status: u8,
    pub waiting: Waiting,
}

#[derive(Clone, Copy)]
pub struct Machine {
    pub registers: Registers,
}

// The words of a cycle: the instruction lines, the Y input and the pins.
#[derive(Clone, Copy)]
pub struct Words {
    pub lines: u16,
    pub input: u16,
    pub pins: u16,
}

// What a cycle shows: Y and its known bits, CT and T; and the instruction that it completed, if any. CT is 2 for none and T 16 for not driven,
// because a report has these words (document 01, the report).
#[derive(Clone, Copy)]
pub struct Report {
    pub y: u16,
    pub mask: u16,
    pub ct: u8,
    pub t: u8,
    pub completed: Option<Named>,
}

// What a cycle gives: the machine after it, which a refused cycle leaves as it was, and its report or its refusal.
#[derive(Clone, Copy)]
pub struct Turn {
    pub machine: Machine,
    pub answer: Result<Report, Refusal>,
}

// What a step leaves besides RAM, and tells: the core, the instruction of the word that it is about, also where it only begins it, and the report.
#[derive(Clone, Copy)]
pub struct Stepped {
    pub core: Core,
    pub named: Named,
    pub report: Report,
}

// What a refused step leaves and tells: the core as it was, the instruction of the word that it is about, and the refusal.
#[derive(Clone, Copy)]
pub struct RefusedStep {
    pub core: Core,
    pub named: Named,
    pub refusal: Refusal,
}

// What an accepted cycle is judged to be: whether it only begins an instruction, and the instruction of the word that it is about with its plan
// and its I operand. Not an enum: as one, a cycle took 291 instructions and 1.12 of C's time, and so 254 and 0.99.
#[derive(Clone, Copy)]
pub struct Verdict {
    pub begins: bool,
    pub named: Named,
    pub plan: Plan,
    pub immediate: u16,
}

// What an instruction sees: every word at its width, and the status.
#[derive(Clone, Copy)]
pub struct View {
    pub ram: u16,
    pub acc: u16,
    pub latch: u16,
    pub immediate: u16,
    pub status: u8,
}

// What an instruction does: the result for its destination, what the bus shows of it, and the status that it would leave.
#[derive(Clone, Copy)]
pub struct Effect {
    pub result: u16,
    pub shown: u16,
    pub mask: u16,
    pub status: u8,
    pub destination: Destination,
}

// Whether a run may start here: nothing waits, or an accepted word with an I operand.
pub fn may_start(waiting: Waiting) -> bool
    ensures { result ≡ may_start waiting }
{
    match waiting {
        Waiting::Nothing => true,
        Waiting::Held(word) => isa::takes_immediate(word),
    }
}

// A machine taken apart: its registers but RAM. This and `machine_from` are calls with contracts of their own (demands, `every_contract`), and no
// `From`.
pub fn core_of(registers: Registers) -> Core
    ensures { result ≡ core_of registers }
{
    Core {
        acc: registers.acc,
        latch: registers.latch,
        status: registers.status,
        waiting: registers.waiting,
    }
}

// A machine put together of RAM and the other registers.
pub fn machine_from(ram: [u16; 32], core: Core) -> Machine
    ensures { result ≡ machine_from ram core }
{
    Machine {
        registers: Registers {
            ram,
            acc: core.acc,
            latch: core.latch,
            status: core.status,
            waiting: core.waiting,
        },
    }
}

// One cycle with RAM in place: it is judged; it is refused or, with D latched, it waits, or its instruction sees, acts and settles.
pub fn step(ram: &mut [u16; 32], core: Core, words: Words) -> Result<Stepped, RefusedStep>
    ensures { Steps ram.old core words result ram.new }
{
    let found = judging::look_up(core.waiting, words.lines);
    let judged = match judging::judge(core.waiting, found, words) {
        Ok(judged) => judged,
        Err(refusal) => {
            return Err(RefusedStep {
                core,
                named: found.named,
                refusal,
            });
        }
    };
    let before = settling::latched(core, words.input, words.pins);
    if judged.begins {
        return Ok(stepping::waits(judged.named, before, words));
    }
    Ok(stepping::performs(ram, judged, before, words.pins))
}

// One cycle of a machine that goes in by value and comes back by value.
pub fn cycle(machine: Machine, words: Words) -> Turn
    ensures { turn_tells result ≡ cycle_of machine words }
{
    let mut ram = machine.registers.ram;
    match step(&mut ram, core_of(machine.registers), words) {
        Ok(stepped) => Turn {
            machine: machine_from(ram, stepped.core),
            answer: Ok(stepped.report),
        },
        Err(refused) => Turn {
            machine: machine_from(ram, refused.core),
            answer: Err(refused.refusal),
        },
    }
}
