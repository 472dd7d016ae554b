// The words of a text: three words of four hex digits on a line, with blanks between, "#" before a comment, and lines without a word
// passed over. A text may come in pieces of any length.
#![tactic(auto)]

mod bytes; // bytes.rt: what a byte is
mod line; // line.rt: what a byte does to a line

ghost use Rattle.std.specs.Prelude.{◌≡◌};
ghost use Rattle.text.specs.Taking.{start_of, kept_word, passed, with_word, with_fault, fault_at, Takes};

use bytes::kind_of;
use line::move_of;

// The words of a line: those of a cycle.
pub const WORDS_PER_LINE: usize = 3;

// What a byte is in a line: its words are over, a blank, a hex digit, or anything else.
#[derive(Clone, Copy)]
pub(crate) enum Kind {
    Over,
    Blank,
    Digit(u8),
    Other,
}

// What was expected where a fault is.
#[derive(Clone, Copy)]
pub enum Expected {
    Digit,
    Blank,
    Word,
    LineEnd,
}

// Where a reader stands in a line: between words, within one (its digits and value so far), right after one, or in what is passed over.
#[derive(Clone, Copy)]
pub enum Place {
    Between,
    Within(u8, u16),
    After,
    Rest,
}

// What a byte brings: nothing yet, a whole word, or a fault. Three ways, which a Result of an Option would only nest.
#[derive(Clone, Copy)]
pub(crate) enum Met {
    Nothing,
    Word(u16),
    Fault(Expected),
}

// The place after a byte, how many words of the line are read, and what the byte brought.
#[derive(Clone, Copy)]
pub(crate) struct Move {
    pub(crate) place: Place,
    pub(crate) words: usize,
    pub(crate) met: Met,
}

// A reader between two bytes: the line and the column of the next one, the line's words so far, the place in it; how many words of the
// text are kept, and how many of its lines are bad.
#[derive(Clone, Copy)]
pub struct Reader {
    pub line: u64,
    pub column: u64,
    pub words: usize,
    pub place: Place,
    pub found: usize,
    pub faults: u64,
}

// A line that cannot be read: its number, the column of the byte that does not fit, and what was expected there.
#[derive(Clone, Copy)]
pub struct Fault {
    pub line: u64,
    pub column: u64,
    pub expected: Expected,
}

// The reader after some bytes of a text, how many they are, and the fault that it stopped at, if it is not at the end of the text or of
// the piece of it.
#[derive(Clone, Copy)]
pub struct Taken {
    pub reader: Reader,
    pub bytes: usize,
    pub fault: Option<Fault>,
}

// A reader before the first byte of a text.
pub fn start() -> Reader
    ensures { result ≡ start_of }
{
    Reader {
        line: 1,
        column: 1,
        words: 0,
        place: Place::Between,
        found: 0,
        faults: 0,
    }
}

impl Reader {
    // The reader after a byte.
    #[tactic(auto, unfolding(crate::specs::Taking::passed))]
    fn passed(self, step: Move, byte: u8) -> Reader
        ensures { result ≡ passed self step byte }
    {
        if byte == b'\n' {
            Reader {
                line: self.line.saturating_add(1),
                column: 1,
                words: 0,
                place: Place::Between,
                ..self
            }
        } else {
            Reader {
                column: self.column.saturating_add(1),
                words: step.words,
                place: step.place,
                ..self
            }
        }
    }

    fn with_word(self, room: usize) -> Reader
        ensures { result ≡ with_word self room }
    {
        if self.found < room {
            Reader {
                found: self.found + 1,
                ..self
            }
        } else {
            self
        }
    }

    fn with_fault(self) -> Reader
        ensures { result ≡ with_fault self }
    {
        Reader {
            faults: self.faults.saturating_add(1),
            ..self
        }
    }

    fn fault_at(self, expected: Expected) -> Fault
        ensures { result ≡ fault_at self expected }
    {
        Fault {
            line: self.line,
            column: self.column,
            expected,
        }
    }
}

// A word in its place, if there is room for it.
fn keep(at: usize, word: u16, words: &mut [u16])
    ensures { words.new ≡ kept_word at word words.old }
{
    if at < words.len() {
        words[at] = word;
    }
}

// Takes the bytes of a text, up to its end or the first fault, and keeps its words after those that were found before.
pub fn take(reader: Reader, text: &[u8], words: &mut [u16]) -> Taken
    ensures { Takes reader text.now result words.old words.new }
{
    let mut state = reader;
    for (i, byte) in text.iter().enumerate() {
        let step = move_of(state.place, state.words, kind_of(*byte));
        let next = state.passed(step, *byte);
        match step.met {
            Met::Nothing => state = next,
            Met::Word(value) => {
                keep(state.found, value, words);
                state = next.with_word(words.len());
            }
            Met::Fault(expected) => {
                return Taken {
                    reader: next.with_fault(),
                    bytes: i + 1,
                    fault: Some(state.fault_at(expected)),
                };
            }
        }
    }
    Taken {
        reader: state,
        bytes: text.len(),
        fault: None,
    }
}
