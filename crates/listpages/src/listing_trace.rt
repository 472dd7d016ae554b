// A trace, and its listing.
ghost use Rattle.std.specs.Prelude.{◌≡◌, ◌+◌, ◌*◌, ◌≤◌, ◌++◌, length};
ghost use Rattle.isa.specs.Table.{numbered};
ghost use Rattle.run.specs.Runs.{most_cycles};
ghost use Rattle.trace.specs.Layout.{words_per_record};
ghost use Rattle.lines.specs.Answers.{Makes};
ghost use Rattle.pages.specs.Writing.{Writes};
ghost use Rattle.listpages.specs.Entries.{refusal_at};
ghost use Rattle.listpages.specs.Listing.{list_text, list_said, said_by, listed_text, listed_said};

use crate::draft::Draft;
use crate::entries;
use lines::{Program, Remark};
use pages::Written;
use refusals::Refusal;
use run::{Ending, MOST_CYCLES, WORDS_PER_CYCLE};

// The most bytes of a line: 24, and 29 for any number that a word could be refused with.
const LINE_BYTES: usize = 29;

// Room for the listing of every trace.
pub const LIST_BYTES: usize = LINE_BYTES * MOST_CYCLES;

// Why a word is refused; data never is.
fn refusal_at(waits: bool, word: u16) -> Option<Refusal>
    ensures { numbered result ≡ refusal_at waits word }
{
    if waits { None } else { isa::decode(word).err() }
}

impl<const N: usize> Draft<N> {
    // The lines of some cycle words one after another.
    fn add_lines(&mut self, words: &[u16])
        requires { length self.old + length (list_text words.now) ≤ N }
        ensures { self.new ≡ self.old ++ list_text words.now }
    {
        let (cycles, _) = words.as_chunks::<WORDS_PER_CYCLE>();
        let mut waits = false;
        for &[word, _, _] in cycles {
            self.add(|room| entries::entry_line(waits, word, room));
            waits = entries::waits_after(waits, word);
        }
    }
}

// Why the first refused word is refused, if one is.
fn first_refused(words: &[u16]) -> Option<Remark>
    ensures { said_by result ≡ list_said words.now }
{
    let (cycles, _) = words.as_chunks::<WORDS_PER_CYCLE>();
    let mut waits = false;
    for (i, &[word, _, _]) in cycles.iter().enumerate() {
        if let Some(refusal) = refusal_at(waits, word) {
            return Some(Remark::Refusal(u8::from(refusal), i, word, 0));
        }
        waits = entries::waits_after(waits, word);
    }
    None
}

fn say_refused_word(words: &[u16], said: &mut [u8]) -> Option<usize>
    ensures { Makes (list_said words.now) result said.old said.new }
{
    match first_refused(words) {
        Some(remark) => lines::remark_line(Program::ListTrace, remark, said),
        None => Some(0),
    }
}

fn list_words(words: &[u16], out: &mut [u8]) -> Option<usize>
    requires { length words.now ≤ words_per_record * most_cycles }
    ensures { Makes (list_text words.now) result out.old out.new }
{
    let mut text = Draft::<LIST_BYTES>::new();
    text.add_lines(words);
    text.hand_over(out)
}

// The listing of a trace: a line for each cycle. A trace that the reader refuses has that one line.
pub fn list_trace(trace: &[u8], out: &mut [u8], said: &mut [u8]) -> Written
    ensures { Writes (listed_text trace.now) (listed_said trace.now) result out.old said.old out.new said.new }
{
    let mut cycles = [0u16; trace::CYCLE_WORDS];
    match trace::read(trace, &mut cycles) {
        Ok(n) => Written {
            output: list_words(&cycles[..n], out),
            said: say_refused_word(&cycles[..n], said),
        },
        // pages says a refusal of the reader so too, for a program of its own.
        Err(refused) => {
            let number = u8::from(refused.refusal);
            let remark = Remark::Refusal(number, refused.index, 0, 0);
            Written {
                output: lines::last_line(Ending::Refused(number, refused.index), 0, out),
                said: lines::remark_line(Program::ListTrace, remark, said),
            }
        }
    }
}
