// A run of the machine: cycles from a lent slice of words, reports into a lent slice, and one answer.
#![tactic(auto)]

ghost use Rattle.std.specs.Prelude.{◌≡◌, ◌+◌, ◌*◌, ◌/◌, ◌≤◌, ◌<◌, length};
ghost use Rattle.std.proofs.Math.Seq.{paste};
ghost use Rattle.choice.specs.Checks.{refusal};
ghost use Rattle.machine.specs.Cycles.{completions};
ghost use Rattle.machine.specs.Deciding.{fault_in};
ghost use Rattle.machine.specs.Stepping.{machine_from};
ghost use Rattle.run.specs.Splitting.{words_per_cycle, words_per_report, cycles_in, cycles_of, report_words};
ghost use Rattle.run.specs.Courses.{run_from};
ghost use Rattle.run.specs.Runs.{most_cycles, start_checks, run_of, zero_machine, full_budget, Gives};

use machine::{Core, Machine, Registers, Report, Waiting, Words};
use refusals::Refusal;

// The words of a cycle, and of a report.
pub const WORDS_PER_CYCLE: usize = 3;

pub const WORDS_PER_REPORT: usize = 4;

// The most cycles of a run.
pub const MOST_CYCLES: usize = 4096;

// The budget that lets every cycle run.
const FULL_BUDGET: u64 = 4096;

// How a run ends. A refusal has its number, which the lines print (lines, `last_line`), and the index of the cycle or 0.
#[derive(Clone, Copy)]
pub enum Ending {
    Done,
    Stopped,
    Refused(u8, usize),
}

#[derive(Clone, Copy)]
pub struct Ran {
    pub machine: Machine,
    pub ending: Ending,
    pub accepted: usize,
    pub completed: usize,
}

// What a whole run is refused for.
fn start_allowed(waiting: Waiting, words: usize, room: usize) -> Result<(), Refusal>
    ensures { fault_in result ≡ refusal (start_checks waiting words room) }
{
    if words % WORDS_PER_CYCLE != 0 {
        return Err(Refusal::NotWholeCycles);
    }
    let cycles = words / WORDS_PER_CYCLE;
    if MOST_CYCLES < cycles {
        return Err(Refusal::TooLong);
    }
    if room < WORDS_PER_REPORT * cycles {
        return Err(Refusal::NoRoom);
    }
    if !machine::may_start(waiting) {
        return Err(Refusal::NothingToOperate);
    }
    Ok(())
}

// The report of cycle i, in its place.
fn put(reports: &mut [u16], i: usize, report: Report)
    requires { words_per_report * i + words_per_report ≤ length reports.old }
    ensures { reports.new ≡ paste reports.old (words_per_report * i) (report_words report) words_per_report }
{
    let at = WORDS_PER_REPORT * i;
    let report = [report.y, report.mask, report.ct.into(), report.t.into()];
    reports[at..at + WORDS_PER_REPORT].copy_from_slice(&report);
}

// A waiting cycle completes no instruction.
fn instructions(report: Report) -> usize
    ensures { result ≡ completions report.completed }
{
    usize::from(report.completed.is_some())
}

fn ended(ram: [u16; 32], core: Core, ending: Ending, accepted: usize, completed: usize) -> Ran
    ensures { result ≡ record { machine = machine_from ram core; ending = ending; accepted = accepted; completed = completed } }
{
    Ran {
        machine: machine::machine_from(ram, core),
        ending,
        accepted,
        completed,
    }
}

// The cycles one after another, once the run as a whole is accepted. RAM stays in its place, and each step writes into it.
fn run_cycles(machine: Machine, words: &[u16], budget: u64, reports: &mut [u16]) -> Ran
    requires { (cycles_in (length words.now) * words_per_cycle ≡ length words.now) × (cycles_in (length words.now) ≤ most_cycles) × (words_per_report * cycles_in (length words.now) ≤ length reports.old) }
    ensures { Gives machine (run_from machine budget (cycles_of words.now)) result reports.old reports.new }
{
    let (cycles, _) = words.as_chunks::<WORDS_PER_CYCLE>();
    let mut ram = machine.registers.ram;
    let mut core = machine::core_of(machine.registers);
    let mut completed: usize = 0;
    for (i, &[lines, input, pins]) in cycles.iter().enumerate() {
        if budget <= i as u64 {
            return ended(ram, core, Ending::Stopped, i, completed);
        }
        match machine::step(&mut ram, core, Words { lines, input, pins }) {
            Ok(stepped) => {
                put(reports, i, stepped.report);
                core = stepped.core;
                completed += instructions(stepped.report);
            }
            Err(refused) => {
                let ending = Ending::Refused(refused.refusal.into(), i);
                return ended(ram, refused.core, ending, i, completed);
            }
        }
    }
    ended(ram, core, Ending::Done, cycles.len(), completed)
}

// A run: at most 4,096 cycles of three words, a budget that is a number of cycles, and four words of room for each report.
pub fn run(machine: Machine, words: &[u16], budget: u64, reports: &mut [u16]) -> Ran
    ensures { Gives machine (run_of machine words.now budget (length reports.old)) result reports.old reports.new }
{
    match start_allowed(machine.registers.waiting, words.len(), reports.len()) {
        Ok(()) => run_cycles(machine, words, budget, reports),
        Err(refusal) => Ran {
            machine,
            ending: Ending::Refused(refusal.into(), 0),
            accepted: 0,
            completed: 0,
        },
    }
}

fn all_zero() -> Machine
    ensures { result ≡ zero_machine }
{
    Machine {
        registers: Registers {
            ram: [0; 32],
            acc: 0,
            latch: 0,
            status: 0,
            waiting: Waiting::Nothing,
        },
    }
}

// The run that a program makes of a trace: from all zero, with budget for every cycle.
pub fn run_from_zero(words: &[u16], reports: &mut [u16]) -> Ran
    ensures { Gives zero_machine (run_of zero_machine words.now full_budget (length reports.old)) result reports.old reports.new }
{
    run(all_zero(), words, FULL_BUDGET, reports)
}
