// The line of a word in a listing, and the answer to a line of a listing.
ghost use Rattle.std.specs.Prelude.{◌≡◌, [], ◌∷◌, ◌++◌};
ghost use Rattle.choice.specs.Text.{newline, hex};
ghost use Rattle.lines.specs.Answers.{Makes};
ghost use Rattle.listing.specs.Answers.{read_tells};
ghost use Rattle.listing.specs.Lines.{line_of};
ghost use Rattle.listpages.specs.Entries.{entry_line, instruction_line, line_tells, waits_after, answer_by};

use refusals::Refused;
use run::Ending;

// Four hex digits and the line's end.
fn hex_line(word: u16, out: &mut [u8]) -> Option<usize>
    ensures { Makes (hex 4 word ++ newline ∷ []) result out.old out.new }
{
    let mut line = [0u8; listing::DATA_BYTES + 1];
    let _ = listing::data_line(word, &mut line);
    line[listing::DATA_BYTES] = b'\n';
    lines::hand_over(&line, out)
}

// An instruction, or its refusal.
fn instruction_line(word: u16, out: &mut [u8]) -> Option<usize>
    ensures { Makes (instruction_line (line_of word)) result out.old out.new }
{
    let mut line = [0u8; listing::LINE_BYTES + 1];
    match listing::line_of(word, &mut line) {
        Ok(n) => {
            line[n] = b'\n';
            lines::hand_over(&line[..n + 1], out)
        }
        Err(refusal) => lines::word_refused_line(u8::from(refusal), out),
    }
}

// The line of a word: data where an instruction waits for its operand, or an instruction.
#[tactic(auto, unfolding(crate::specs::Entries::entry_line))]
pub(crate) fn entry_line(waits: bool, word: u16, out: &mut [u8]) -> Option<usize>
    ensures { Makes (entry_line waits word) result out.old out.new }
{
    if waits {
        hex_line(word, out)
    } else {
        instruction_line(word, out)
    }
}

// What a line of a listing tells.
#[tactic(auto, unfolding(crate::specs::Entries::line_tells))]
pub(crate) fn read_line(waits: bool, line: &[u8]) -> Result<u16, Refused>
    ensures { read_tells result ≡ line_tells waits line.now }
{
    if waits {
        listing::data_of(line)
    } else {
        listing::word_of(line)
    }
}

// Whether an instruction waits for its operand after a word.
pub(crate) fn waits_after(waits: bool, word: u16) -> bool
    ensures { result ≡ waits_after waits word }
{
    !waits && isa::takes_immediate(word)
}

// The answer to a line, by what it tells.
pub(crate) fn answer_line(read: Result<u16, Refused>, out: &mut [u8]) -> Option<usize>
    ensures { Makes (answer_by (read_tells read)) result out.old out.new }
{
    match read {
        Ok(word) => hex_line(word, out),
        Err(refused) => {
            let ending = Ending::Refused(u8::from(refused.refusal), refused.index);
            lines::last_line(ending, 0, out)
        }
    }
}
