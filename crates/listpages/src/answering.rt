// The lines of a listing, and their words.
ghost use Rattle.std.specs.Prelude.{◌≡◌, ◌+◌, ◌≤◌, ◌++◌, ◌==◌, length, position};
ghost use Rattle.listing.specs.Answers.{read_tells};
ghost use Rattle.listpages.specs.Answering.{lines_of, after_answer, answers_of, reading_after, line_end, ReadsLines};

use crate::draft::Draft;
use crate::{LinesRead, Reading, entries};
use refusals::Refused;

// The most bytes that are taken at once, and room for their answers: a line has at least its end, and no answer is longer than 53 bytes.
pub const PIECE_BYTES: usize = 4096;

pub const ANSWER_BYTES: usize = 53 * PIECE_BYTES;

// The first line feed of some bytes.
fn line_feed(bytes: &[u8]) -> Option<usize>
    ensures { result ≡ position (λ b. b == 10) bytes.now }
{
    bytes.iter().position(|byte| *byte == b'\n')
}

// The end of the first line of some bytes: its line feed, or the end of the bytes.
fn line_end(bytes: &[u8]) -> usize
    ensures { result ≡ line_end bytes.now }
{
    line_feed(bytes).unwrap_or(bytes.len())
}

impl Reading {
    // The reader after a line, by what it tells.
    fn after(self, read: Result<u16, Refused>) -> Reading
        ensures { result ≡ after_answer self (read_tells read) }
    {
        match read {
            Ok(word) => Reading {
                waits: entries::waits_after(self.waits, word),
                ..self
            },
            Err(_) => Reading {
                waits: false,
                refused: self.refused.saturating_add(1),
            },
        }
    }
}

impl<const N: usize> Draft<N> {
    // The answers to the lines of some bytes, one after another; and the reader after them.
    fn add_answers(&mut self, reading: Reading, bytes: &[u8]) -> Reading
        requires { length self.old + length (answers_of reading (lines_of bytes.now)) ≤ N }
        ensures text { self.new ≡ self.old ++ answers_of reading (lines_of bytes.now) }
        ensures reading { result ≡ reading_after reading (lines_of bytes.now) }
    {
        let mut state = reading;
        let mut rest = bytes;
        // as `lines_of` cuts them: the last line may lack its end
        while !rest.is_empty() {
            let (line, others) = rest.split_at(line_end(rest));
            let read = entries::read_line(state.waits, line);
            self.add(|room| entries::answer_line(read, room));
            state = state.after(read);
            rest = match others {
                [_, more @ ..] => more,
                [] => others,
            };
        }
        state
    }
}

// The answers to the lines of some bytes, one line per answer. The last line may lack its line feed. Bytes beyond `PIECE_BYTES` are passed over.
pub fn read_lines(reading: Reading, bytes: &[u8], out: &mut [u8]) -> LinesRead
    ensures { ReadsLines reading bytes.now result out.old out.new }
{
    let mut text = Draft::<ANSWER_BYTES>::new();
    let piece = &bytes[..PIECE_BYTES.min(bytes.len())];
    let next = text.add_answers(reading, piece);
    LinesRead {
        reading: next,
        output: text.hand_over(out),
    }
}
