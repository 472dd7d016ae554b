// The lines that are printed, of a run and of a trace, and what is said to a person, as text in ASCII. A line is made in full before any of
// it is handed over.
#![tactic(auto)]

mod digits; // digits.rt: numbers into digits
mod draft; // draft.rt: a line that is being made, field after field
mod page; // page.rt: which line comes when
mod remarks; // remarks.rt: what is said to a person
mod words; // words.rt: a trace as text

ghost use Rattle.std.specs.Prelude.{◌≡◌, [], ◌∷◌, ◌++◌, ◌+◌, ◌≤◌, length};
ghost use Rattle.choice.specs.Text.{newline, decimal};
ghost use Rattle.lines.specs.Lines.{cycle_line, waiting_text, state_line, register_line, word_refused_line, refused_line, last_line};
ghost use Rattle.lines.specs.Answers.{Makes};

use draft::Draft;
pub use draft::hand_over;
use machine::{Registers, Waiting};
pub use page::{
    CYCLE_BYTES, LAST_BYTES, LINES_BESIDE_CYCLES, REGISTER_BYTES, REGISTERS, STATE_BYTES, page_line,
};
pub use remarks::{REMARK_BYTES, remark_line};
use run::Ending;
pub use words::{FAULT_BYTES, WORDS_BYTES, fault_line, words_line};

// The programs that are named.
#[derive(Clone, Copy)]
pub enum Program {
    RunTrace,
    PackTrace,
    UnpackTrace,
    ListTrace,
    ReadList,
}

// What there is to say: input or output failed, a run ends with this word waiting, a text begins with a byte order mark, this many of its
// bad lines are not named, a refusal: its number, the index of its block or cycle, and that cycle's instruction word and pins; this many lines of
// a listing cannot be read, or one is too long. A refusal is told by its number, because `remark_line` takes every number.
#[derive(Clone, Copy)]
pub enum Remark {
    NoInput,
    NoOutput,
    Waits(u16),
    Marked,
    Unnamed(u64),
    Refusal(u8, usize, u16, u16),
    Unread(u64),
    LongLine,
}

// Room for the longest line of a run.
const LONGEST: usize = 64;

// An accepted cycle: its number and the four words of its report.
pub fn cycle_line(number: u64, y: u16, mask: u16, ct: u16, t: u16, out: &mut [u8]) -> Option<usize>
    ensures { Makes (cycle_line number y mask ct t) result out.old out.new }
{
    let mut line = Draft::<LONGEST>::new();
    line.put_decimal(number, b' ');
    line.put_word(y, b' ');
    line.put_word(mask, b' ');
    line.put_digit(ct, 2, b' ');
    line.put_digit(t, 16, b'\n');
    line.hand_over(out)
}

impl<const N: usize> Draft<N> {
    // The word that waits, or "-", and the line's end.
    fn put_waiting(&mut self, waiting: Waiting)
        requires { length self.old + 5 ≤ N }
        ensures text { self.new ≡ self.old ++ (waiting_text waiting ++ newline ∷ []) }
        ensures long { length self.new ≤ length self.old + 5 }
    {
        match waiting {
            Waiting::Nothing => self.put(b"-\n"),
            Waiting::Held(word) => self.put_word(word, b'\n'),
        }
    }
}

// The state: ACC, D, the status and the word that waits.
pub fn state_line(registers: Registers, out: &mut [u8]) -> Option<usize>
    ensures { Makes (state_line registers) result out.old out.new }
{
    let mut line = Draft::<LONGEST>::new();
    line.put(b"acc ");
    line.put_word(registers.acc, b' ');
    line.put(b"d ");
    line.put_word(registers.latch, b' ');
    line.put(b"st ");
    line.put_numeral(registers.status as u64, 16, 2);
    line.put(b" wait ");
    line.put_waiting(registers.waiting);
    line.hand_over(out)
}

// A register that is not 0; one that is 0 has no line.
pub fn register_line(number: u64, value: u16, out: &mut [u8]) -> Option<usize>
    ensures { Makes (register_line number value) result out.old out.new }
{
    if value == 0 {
        return Some(0);
    }
    let mut line = Draft::<LONGEST>::new();
    line.put(b"r");
    line.put_numeral(number, 10, 2);
    line.put(b" ");
    line.put_word(value, b'\n');
    line.hand_over(out)
}

// A text and a number.
fn counted_line(text: &[u8], number: u64, out: &mut [u8]) -> Option<usize>
    requires { length text.now ≤ 8 }
    ensures { Makes (text.now ++ (decimal number ++ newline ∷ [])) result out.old out.new }
{
    let mut line = Draft::<LONGEST>::new();
    line.put(text);
    line.put_decimal(number, b'\n');
    line.hand_over(out)
}

fn refused_line(number: u64, index: u64, out: &mut [u8]) -> Option<usize>
    ensures { Makes (refused_line number index) result out.old out.new }
{
    let mut line = Draft::<LONGEST>::new();
    line.put(b"refused ");
    line.put_decimal(number, b' ');
    line.put(b"at ");
    line.put_decimal(index, b'\n');
    line.hand_over(out)
}

// A word of a listing that is refused, with any number.
#[tactic(auto, unfolding(crate::specs::Lines::word_refused_line))]
pub fn word_refused_line(number: u8, out: &mut [u8]) -> Option<usize>
    ensures { Makes (word_refused_line number) result out.old out.new }
{
    counted_line(b"refused ", number as u64, out)
}

// The last line, by how the run ended.
#[tactic(auto, unfolding(crate::specs::Lines::last_line))]
pub fn last_line(ending: Ending, accepted: u64, out: &mut [u8]) -> Option<usize>
    ensures { Makes (last_line ending accepted) result out.old out.new }
{
    match ending {
        Ending::Done => counted_line(b"done ", accepted, out),
        Ending::Stopped => counted_line(b"stopped ", accepted, out),
        Ending::Refused(number, index) => refused_line(number as u64, index as u64, out),
    }
}
