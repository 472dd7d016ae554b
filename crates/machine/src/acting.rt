// What an instruction does with what it sees.
ghost use Rattle.std.specs.Prelude.{◌≡◌};
ghost use Rattle.machine.specs.Stepping.{operation_of};
ghost use Rattle.machine.specs.Acting.{outcome_for, bus_of, width_mask, mask_of, taken_status, status_for, performed_of, effect_by, effect_of};

use crate::seeing::{place, sources};
use crate::{Effect, View};
use alu::{Mode, Operation, Outcome};
use plan::{Destination, Plan, Shown, Task};

// All ones at the width.
fn width_mask(mode: Mode) -> u16
    ensures { result ≡ width_mask mode }
{
    match mode {
        Mode::Byte => 0x00FF,
        Mode::Word => 0xFFFF,
    }
}

// The operation of a task on its operands, each as the task has it. NOOP and the tasks of the status compute nothing and are not asked for; a
// rotate stands in their arms.
fn operation_of(task: Task, n: u8, first: u16, second: u16, mask: u16) -> Operation
    ensures { result ≡ operation_of task n first second mask }
{
    match task {
        Task::TwoOperand(kind) => Operation::TwoOperand {
            kind,
            r: first,
            s: second,
        },
        Task::OneOperand(kind) => Operation::OneOperand {
            kind,
            source: first,
        },
        Task::Bit(kind) => Operation::Bit {
            kind,
            n,
            source: first,
        },
        Task::Shift(kind) => Operation::Shift {
            kind,
            source: first,
        },
        Task::Rotate
        | Task::NoOperation
        | Task::SaveStatus
        | Task::SetStatus(_)
        | Task::ResetStatus(_)
        | Task::TestStatus => Operation::Rotate { n, source: first },
        Task::Merge => Operation::Merge {
            n,
            u: first,
            r: second,
            mask,
        },
        Task::Compare => Operation::Compare {
            n,
            u: first,
            r: second,
            mask,
        },
        Task::Prioritize => Operation::Prioritize {
            source: first,
            mask,
        },
        Task::CrcForward => Operation::CrcForward {
            register: first,
            acc: second,
        },
        Task::CrcReverse => Operation::CrcReverse {
            register: first,
            acc: second,
        },
    }
}

// The outcome of a task. All that compute go by one call, because the compiler makes a part of the cycle only of what is called once. The operands stay apart,
// as the definition has them.
fn outcome_for(
    task: Task,
    mode: Mode,
    n: u8,
    first: u16,
    second: u16,
    mask: u16,
    status: u8,
) -> Outcome
    ensures { result ≡ outcome_for task mode n first second mask status }
{
    match task {
        Task::NoOperation | Task::TestStatus => Outcome { result: 0, status },
        Task::SaveStatus => Outcome {
            result: status as u16,
            status,
        },
        Task::SetStatus(bits) => Outcome {
            result: width_mask(mode),
            status: status | bits,
        },
        Task::ResetStatus(bits) => Outcome {
            result: 0,
            status: status & (255 - bits),
        },
        _ => alu::perform(mode, operation_of(task, n, first, second, mask), status),
    }
}

// What the bus shows of a result.
fn bus_of(task: Task, res: u16) -> u16
    ensures { result ≡ bus_of task res }
{
    match task {
        Task::SetStatus(_) => 0xFFFF,
        _ => res,
    }
}

// The known bits of Y.
fn mask_of(shown: Shown, mode: Mode) -> u16
    ensures { result ≡ mask_of shown mode }
{
    match shown {
        Shown::AtWidth => width_mask(mode),
        Shown::Whole => 0xFFFF,
        Shown::Nothing => 0,
    }
}

// Status as a destination.
fn taken_status(mode: Mode, y: u16, old: u8) -> u8
    ensures { result ≡ taken_status mode y old }
{
    match mode {
        Mode::Byte => old / 16 * 16 + (y % 16) as u8,
        Mode::Word => (y % 256) as u8,
    }
}

fn status_for(destination: Destination, mode: Mode, outcome: Outcome, old: u8) -> u8
    ensures { result ≡ status_for destination mode outcome old }
{
    match destination {
        Destination::ToY | Destination::ToAcc | Destination::ToRam => outcome.status,
        Destination::ToStatus | Destination::ToAccAndStatus => {
            taken_status(mode, outcome.result, old)
        }
    }
}

fn performed(plan: Plan, view: View) -> Outcome
    ensures { result ≡ performed_of plan view }
{
    let all = sources(view);
    let operands = plan.work.operands;
    outcome_for(
        plan.work.task,
        plan.mode,
        plan.n,
        all[place(operands.first)],
        all[place(operands.second)],
        all[place(operands.mask)],
        view.status,
    )
}

fn effect_by(plan: Plan, outcome: Outcome, old: u8) -> Effect
    ensures { result ≡ effect_by plan outcome old }
{
    let work = plan.work;
    Effect {
        result: outcome.result,
        shown: bus_of(work.task, outcome.result),
        mask: mask_of(work.shown, plan.mode),
        status: status_for(work.destination, plan.mode, outcome, old),
        destination: work.destination,
    }
}

pub(crate) fn acted(plan: Plan, view: View) -> Effect
    ensures { result ≡ effect_of plan view }
{
    effect_by(plan, performed(plan, view), view.status)
}
