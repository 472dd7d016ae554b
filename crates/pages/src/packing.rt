// A text, and the trace of its words.
ghost use Rattle.std.specs.Prelude.{◌≡◌, [], true, ◌+◌, ◌≤◌, ◌++◌, ltb, length, take, get_or};
ghost use Rattle.choice.specs.Pick.{pick};
ghost use Rattle.lines.specs.declared.Program.TheVariants.{PackTrace};
ghost use Rattle.lines.specs.Words.{fault_line};
ghost use Rattle.lines.specs.Remarks.{remark_line};
ghost use Rattle.pages.specs.Packing.{most_named, is_mark, mark_said, unnamed_said, TakesPiece, EndsText};
ghost use Rattle.pages.specs.Naming.{fault_bytes, remark_bytes, named_bytes, Names, Packs};

use crate::draft::Draft;
use crate::{PieceTaken, Written, running};
use lines::{Program, Remark};
use run::MOST_CYCLES;
use text::{Fault, Reader, WORDS_PER_LINE};

// The words of one cycle more than a trace may have: what comes after them would be refused alike. They are lent beside a reader that counts those
// found, as the public calls have it.
pub const PACKED_WORDS: usize = WORDS_PER_LINE * (MOST_CYCLES + 1);

// How many bad lines are named, and the room that they take.
const MOST_NAMED: u64 = 20;

const NAMED_BYTES: usize = lines::FAULT_BYTES * (MOST_NAMED as usize);

// Room for what is said of a piece, and at the end of a text.
pub const SAID_BYTES: usize = NAMED_BYTES + lines::REMARK_BYTES + lines::REMARK_BYTES;

// A byte order mark: EF BB BF, or FF FE or FE FF of a text in words of 16 bits.
fn has_mark(text: &[u8]) -> bool
    ensures { result ≡ is_mark (get_or text.now 0 0) (get_or text.now 1 0) (get_or text.now 2 0) }
{
    matches!(
        text,
        [0xEF, 0xBB, 0xBF, ..] | [0xFF, 0xFE, ..] | [0xFE, 0xFF, ..]
    )
}

impl<const N: usize> Draft<N> {
    fn add_remark(&mut self, remark: Remark)
        requires { length self.old + remark_bytes ≤ N }
        ensures text { self.new ≡ self.old ++ remark_line PackTrace remark }
        ensures long { length self.new ≤ length self.old + remark_bytes }
    {
        self.add(|room| lines::remark_line(Program::PackTrace, remark, room));
    }

    // Says that a text begins with a byte order mark.
    fn add_mark(&mut self, reader: Reader, piece: &[u8])
        requires { length self.old + remark_bytes ≤ N }
        ensures text { self.new ≡ self.old ++ mark_said reader piece.now }
        ensures long { length self.new ≤ length self.old + remark_bytes }
    {
        if reader.line == 1 && reader.column == 1 && has_mark(piece) {
            self.add_remark(Remark::Marked);
        }
    }

    // Names a bad line, `faults` lines being bad already.
    fn add_fault(&mut self, fault: Fault, faults: u64)
        requires { ltb faults most_named ≡ true → length self.old + fault_bytes ≤ N }
        ensures { self.new ≡ self.old ++ pick (ltb faults most_named) (fault_line fault) [] }
    {
        if faults < MOST_NAMED {
            self.add(|room| lines::fault_line(fault, room));
        }
    }

    // Takes a piece of a text, and names its bad lines.
    fn add_piece(&mut self, reader: Reader, piece: &[u8], words: &mut [u16; PACKED_WORDS]) -> Reader
        requires { length self.old + named_bytes ≤ N }
        ensures { Names reader piece.now result words.old self.old words.new self.new }
    {
        let mut state = reader;
        let mut rest = piece;
        while !rest.is_empty() {
            let taken = text::take(state, rest, words);
            if let Some(fault) = taken.fault {
                self.add_fault(fault, state.faults);
            }
            state = taken.reader;
            rest = &rest[taken.bytes..];
        }
        state
    }

    // Says how many bad lines were not named.
    fn add_unnamed(&mut self, faults: u64)
        requires { length self.old + remark_bytes ≤ N }
        ensures text { self.new ≡ self.old ++ unnamed_said faults }
        ensures long { length self.new ≤ length self.old + remark_bytes }
    {
        if faults > MOST_NAMED {
            self.add_remark(Remark::Unnamed(faults - MOST_NAMED));
        }
    }
}

// The trace of the words that were found, or what is said of its refusal.
fn write_blocks<const N: usize>(
    reader: Reader,
    words: &[u16],
    out: &mut [u8],
    said: &mut Draft<N>,
) -> usize
    requires { length said.old + remark_bytes ≤ N }
    ensures { Packs (take reader.found words.now) result out.old said.old out.new said.new }
{
    let found = reader.found.min(words.len());
    match trace::write(&words[..found], out) {
        Ok(n) => n,
        Err(refused) => {
            said.add_remark(running::remark_of(refused));
            0
        }
    }
}

// Takes a piece of a text, keeps its words after those that were found before, and names its bad lines, the first twenty of a text. The first
// piece has three bytes or is the whole text, so that a byte order mark is seen.
pub fn take_text(
    reader: Reader,
    piece: &[u8],
    words: &mut [u16; PACKED_WORDS],
    said: &mut [u8],
) -> PieceTaken
    ensures { TakesPiece reader piece.now result words.old said.old words.new said.new }
{
    let mut text = Draft::<SAID_BYTES>::new();
    text.add_mark(reader, piece);
    let next = text.add_piece(reader, piece, words);
    PieceTaken {
        reader: next,
        said: text.hand_over(said),
    }
}

// Ends a text: its last line, what is said of it and of the bad lines that were not named, and the trace of its words, if none is bad. A slice
// that is too short for the trace is told as a refusal with 3.
pub fn end_text(
    reader: Reader,
    words: &mut [u16; PACKED_WORDS],
    out: &mut [u8],
    said: &mut [u8],
) -> Written
    ensures { EndsText reader result words.old out.old said.old words.new out.new said.new }
{
    let mut text = Draft::<SAID_BYTES>::new();
    let next = text.add_piece(reader, b"\n", words);
    text.add_unnamed(next.faults);
    let sound = next.faults == 0;
    let bytes = if sound {
        write_blocks(next, words, out, &mut text)
    } else {
        0
    };
    Written {
        output: Some(bytes),
        said: text.hand_over(said),
    }
}
