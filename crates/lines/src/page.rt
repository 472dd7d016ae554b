// What is printed of a run, line after line.
ghost use Rattle.std.specs.Prelude.{◌≡◌, [], ◌+◌, ◌*◌, ◌≤◌, get_or};
ghost use Rattle.run.specs.Splitting.{words_per_report};
ghost use Rattle.lines.specs.Answers.{Makes};
ghost use Rattle.lines.specs.Pages.{report_line, page_of};

use run::{Ran, WORDS_PER_REPORT};

// The lines of a page besides those of its cycles: the state, the registers and the end.
pub const LINES_BESIDE_CYCLES: usize = REGISTERS + 2;

pub const REGISTERS: usize = 32;

// The place of the end among the lines after those of the cycles.
const LAST_LINE: usize = REGISTERS + 1;

// The most bytes of a line: of one of the first 10,000 cycles, of the state, of a register, and of the end.
pub const CYCLE_BYTES: usize = 19;

pub const STATE_BYTES: usize = 32;

pub const REGISTER_BYTES: usize = 9;

pub const LAST_BYTES: usize = 53;

// A word of report `index`, 0 where the reports do not have it.
fn report_word(reports: &[u16], index: usize, word: usize) -> u16
    requires { word ≤ 3 }
    ensures { result ≡ get_or reports.now (words_per_report * index + word) 0 }
{
    if reports.len() <= index {
        return 0;
    }
    reports
        .get(WORDS_PER_REPORT * index + word)
        .copied()
        .unwrap_or(0)
}

fn report_line(reports: &[u16], index: usize, out: &mut [u8]) -> Option<usize>
    ensures { Makes (report_line reports.now index) result out.old out.new }
{
    let y = report_word(reports, index, 0);
    let mask = report_word(reports, index, 1);
    let ct = report_word(reports, index, 2);
    let t = report_word(reports, index, 3);
    crate::cycle_line(index as u64, y, mask, ct, t, out)
}

// Line `index` of the page of a run: its accepted cycles, the state, the registers, and the end. Past the end lines are empty.
pub fn page_line(ran: Ran, reports: &[u16], index: usize, out: &mut [u8]) -> Option<usize>
    ensures { Makes (get_or (page_of ran reports.now) index []) result out.old out.new }
{
    if index < ran.accepted {
        return report_line(reports, index, out);
    }
    let registers = ran.machine.registers;
    match index - ran.accepted {
        0 => crate::state_line(registers, out),
        after @ 1..=REGISTERS => {
            let number = after - 1;
            crate::register_line(number as u64, registers.ram[number], out)
        }
        LAST_LINE => crate::last_line(ran.ending, ran.accepted as u64, out),
        _ => Some(0),
    }
}
