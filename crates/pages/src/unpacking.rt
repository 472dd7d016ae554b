// A trace, and its words as text.
ghost use Rattle.std.specs.Prelude.{◌≡◌, ◌+◌, ◌*◌, ◌≤◌, ◌++◌, length};
ghost use Rattle.run.specs.Runs.{most_cycles};
ghost use Rattle.trace.specs.Layout.{words_per_record};
ghost use Rattle.lines.specs.Answers.{Makes};
ghost use Rattle.lines.specs.Words.{text_of};
ghost use Rattle.pages.specs.Writing.{Writes};
ghost use Rattle.pages.specs.Unpacking.{unpacked_text, unpacked_said};

use crate::draft::Draft;
use crate::{Written, running};
use lines::Program;
use run::MOST_CYCLES;
use text::WORDS_PER_LINE;

// Room for the text of every trace.
pub const TEXT_BYTES: usize = lines::WORDS_BYTES * MOST_CYCLES;

impl<const N: usize> Draft<N> {
    // The lines of some cycle words one after another. A line goes by its number, so the loop does too.
    fn add_words(&mut self, words: &[u16])
        requires { length self.old + length (text_of words.now) ≤ N }
        ensures { self.new ≡ self.old ++ text_of words.now }
    {
        for i in 0..words.len() / WORDS_PER_LINE {
            self.add(|room| lines::words_line(words, i, room));
        }
    }
}

fn unpack_words(words: &[u16], out: &mut [u8]) -> Option<usize>
    requires { length words.now ≤ words_per_record * most_cycles }
    ensures { Makes (text_of words.now) result out.old out.new }
{
    let mut text = Draft::<TEXT_BYTES>::new();
    text.add_words(words);
    text.hand_over(out)
}

// The words of a trace's cycles, one line per cycle. Of a trace that the reader refuses there is nothing but what is said.
pub fn unpack_trace(trace: &[u8], out: &mut [u8], said: &mut [u8]) -> Written
    ensures { Writes (unpacked_text trace.now) (unpacked_said trace.now) result out.old said.old out.new said.new }
{
    let mut cycles = [0u16; trace::CYCLE_WORDS];
    match trace::read(trace, &mut cycles) {
        Ok(n) => Written {
            output: unpack_words(&cycles[..n], out),
            said: Some(0),
        },
        Err(refused) => Written {
            output: Some(0),
            said: lines::remark_line(Program::UnpackTrace, running::remark_of(refused), said),
        },
    }
}
