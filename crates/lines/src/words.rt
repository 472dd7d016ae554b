// A trace as text: one line of hex words per cycle, and what is said of a line that cannot be read.
ghost use Rattle.std.specs.Prelude.{◌≡◌, ◌++◌, ◌+◌, ◌*◌, ◌≤◌, length};
ghost use Rattle.lines.specs.Answers.{Makes};
ghost use Rattle.lines.specs.Words.{words_text, words_line, expected_text, fault_line};

use crate::draft::Draft;
use text::{Expected, Fault, WORDS_PER_LINE};

// The most bytes of a line of words, and of a fault.
pub const WORDS_BYTES: usize = 5 * WORDS_PER_LINE;

pub const FAULT_BYTES: usize = 85;

impl<const N: usize> Draft<N> {
    // Words with a blank between them, and the line's end.
    fn put_words(&mut self, words: &[u16])
        requires { length self.old + 5 * length words.now ≤ N }
        ensures { self.new ≡ self.old ++ words_text words.now }
    {
        let mut rest = words;
        while let [word, others @ ..] = rest {
            let last = if others.is_empty() { b'\n' } else { b' ' };
            self.put_word(*word, last);
            rest = others;
        }
    }

    fn put_expected(&mut self, expected: Expected)
        requires { length self.old + 20 ≤ N }
        ensures { self.new ≡ self.old ++ expected_text expected }
    {
        match expected {
            Expected::Digit => self.put(b"a hex digit\n"),
            Expected::Blank => self.put(b"a blank\n"),
            Expected::Word => self.put(b"a word\n"),
            Expected::LineEnd => self.put(b"the end of the line\n"),
        }
    }
}

// The line of cycle `index` of some cycle words; past the last one lines are empty.
pub fn words_line(words: &[u16], index: usize, out: &mut [u8]) -> Option<usize>
    ensures { Makes (words_line words.now index) result out.old out.new }
{
    if words.len() / WORDS_PER_LINE <= index {
        return Some(0);
    }
    let from = WORDS_PER_LINE * index;
    let mut line = Draft::<WORDS_BYTES>::new();
    line.put_words(&words[from..from + WORDS_PER_LINE]);
    line.hand_over(out)
}

// Which line of a text cannot be read, where, and what was expected there.
pub fn fault_line(fault: Fault, out: &mut [u8]) -> Option<usize>
    ensures { Makes (fault_line fault) result out.old out.new }
{
    let mut line = Draft::<FAULT_BYTES>::new();
    line.put(b"line ");
    line.put_decimal(fault.line, b',');
    line.put(b" column ");
    line.put_decimal(fault.column, b':');
    line.put(b" expected ");
    line.put_expected(fault.expected);
    line.hand_over(out)
}
