// A trace, and the page of its run.
ghost use Rattle.std.specs.Prelude.{◌≡◌, ◌+◌, ◌*◌, ◌≤◌, ◌++◌, length, get_or};
ghost use Rattle.run.specs.Splitting.{words_per_cycle};
ghost use Rattle.run.specs.Runs.{most_cycles};
ghost use Rattle.trace.specs.Layout.{joined};
ghost use Rattle.refusals.specs.Numbers.{number_of};
ghost use Rattle.lines.specs.declared.Remark.TheVariants.{Refusal};
ghost use Rattle.lines.specs.Answers.{Makes};
ghost use Rattle.lines.specs.Pages.{page_of};
ghost use Rattle.pages.specs.Writing.{Writes};
ghost use Rattle.pages.specs.Running.{wait_said, end_said, run_text, run_said, page_text, page_said};

use crate::Written;
use crate::draft::Draft;
use lines::{Program, Remark};
use machine::Waiting;
use refusals::Refused;
use run::{Ending, MOST_CYCLES, Ran, WORDS_PER_CYCLE, WORDS_PER_REPORT};

// Room for every page.
pub const PAGE_BYTES: usize = lines::CYCLE_BYTES * MOST_CYCLES
    + lines::STATE_BYTES
    + lines::REGISTER_BYTES * lines::REGISTERS
    + lines::LAST_BYTES;

const REPORT_WORDS: usize = WORDS_PER_REPORT * MOST_CYCLES;

impl<const N: usize> Draft<N> {
    // The lines of a page one after another.
    fn add_page(&mut self, ran: Ran, reports: &[u16])
        requires few { ran.accepted ≤ most_cycles }
        requires room { length self.old + length (joined (page_of ran reports.now)) ≤ N }
        ensures { self.new ≡ self.old ++ joined (page_of ran reports.now) }
    {
        for i in 0..ran.accepted + lines::LINES_BESIDE_CYCLES {
            self.add(|room| lines::page_line(ran, reports, i, room));
        }
    }
}

// A word of cycle `index`, 0 where there is no such cycle. lines has the same of reports, which are longer, and keeps it: it asks for a word of a report.
fn cycle_word(words: &[u16], index: usize, word: usize) -> u16
    requires { word ≤ 2 }
    ensures { result ≡ get_or words.now (words_per_cycle * index + word) 0 }
{
    let at = index.saturating_mul(WORDS_PER_CYCLE).saturating_add(word);
    words.get(at).copied().unwrap_or(0)
}

fn say_waiting(waiting: Waiting, said: &mut [u8]) -> Option<usize>
    ensures { Makes (wait_said waiting) result said.old said.new }
{
    match waiting {
        Waiting::Nothing => Some(0),
        Waiting::Held(word) => lines::remark_line(Program::RunTrace, Remark::Waits(word), said),
    }
}

// What is said of the end of a run.
fn say_end(words: &[u16], ending: Ending, waiting: Waiting, said: &mut [u8]) -> Option<usize>
    ensures { Makes (end_said words.now ending waiting) result said.old said.new }
{
    match ending {
        Ending::Done | Ending::Stopped => say_waiting(waiting, said),
        Ending::Refused(number, index) => {
            let word = cycle_word(words, index, 0);
            let pins = cycle_word(words, index, 2);
            let remark = Remark::Refusal(number, index, word, pins);
            lines::remark_line(Program::RunTrace, remark, said)
        }
    }
}

fn run_words(words: &[u16], out: &mut [u8], said: &mut [u8]) -> Written
    ensures { Writes (run_text words.now) (run_said words.now) result out.old said.old out.new said.new }
{
    let mut reports = [0u16; REPORT_WORDS];
    let ran = run::run_from_zero(words, &mut reports);
    let mut page = Draft::<PAGE_BYTES>::new();
    page.add_page(ran, &reports[..WORDS_PER_REPORT * ran.accepted]);
    Written {
        output: page.hand_over(out),
        said: say_end(words, ran.ending, ran.machine.registers.waiting, said),
    }
}

// What there is to say of a refusal of the reader or the writer.
pub(crate) fn remark_of(refused: Refused) -> Remark
    ensures { result ≡ Refusal (number_of refused.refusal) refused.index 0 0 }
{
    Remark::Refusal(u8::from(refused.refusal), refused.index, 0, 0)
}

// The page of a trace's run, from all zero: a line for each accepted cycle, the state, the registers that are not 0, and how the run ended.
// A trace that the reader refuses has that one line.
pub fn run_trace(trace: &[u8], out: &mut [u8], said: &mut [u8]) -> Written
    ensures { Writes (page_text trace.now) (page_said trace.now) result out.old said.old out.new said.new }
{
    let mut cycles = [0u16; trace::CYCLE_WORDS];
    match trace::read(trace, &mut cycles) {
        Ok(n) => run_words(&cycles[..n], out, said),
        Err(refused) => {
            let ending = Ending::Refused(u8::from(refused.refusal), refused.index);
            Written {
                output: lines::last_line(ending, 0, out),
                said: lines::remark_line(Program::RunTrace, remark_of(refused), said),
            }
        }
    }
}
