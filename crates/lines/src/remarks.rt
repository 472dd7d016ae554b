// What is said to a person on standard error: the program's name and why it was refused, or what else there is to say.
ghost use Rattle.std.specs.Prelude.{◌≡◌, [], ◌∷◌, ◌++◌, ◌+◌, ◌≤◌, length};
ghost use Rattle.choice.specs.Text.{hex, decimal, ascii};
ghost use Rattle.lines.specs.Answers.{Makes};
ghost use Rattle.lines.specs.Remarks.{name_of, meaning_of, place_text, refusal_text, remark_text, remark_line};

use crate::draft::Draft;
use crate::{Program, Remark};

// The most bytes of a remark.
pub const REMARK_BYTES: usize = 135;

// What a refusal finds at fault: all of the input, a block, a cycle's instruction word, or its pins.
#[derive(Clone, Copy)]
pub(crate) enum Subject {
    Whole,
    Block,
    Word,
    Pins,
}

// What is at fault and why, by the refusal's number. A number that is not in the table has no reason.
#[tactic(auto, unfolding(crate::specs::Remarks::meaning_of))]
fn meaning_of(number: u8) -> (Subject, &'static [u8])
    ensures subject { result.0 ≡ (meaning_of number).subject }
    ensures why { result.1.now ≡ (meaning_of number).why }
    ensures short { length result.1.now ≤ 47 }
{
    use Subject::{Block, Pins, Whole, Word};
    match number {
        1 => (Whole, b"the words are not whole cycles of three"),
        2 => (Whole, b"there are more than 4,096 cycles or 49 blocks"),
        3 => (Whole, b"there is no room for what comes out"),
        4 => (Whole, b"a word waits that takes no operand"),
        5 => (Pins, b"have a bit on that must be 0"),
        6 => (Pins, b"have DLE high while OE_Y is low"),
        7 => (Word, b"is not on the instruction list"),
        8 => (Word, b"is a prioritize with ACC as source and as mask"),
        9 => (Word, b"is a bit instruction in byte mode with n over 7"),
        10 => (Word, b"takes an operand and is begun with IEN high"),
        11 => (Whole, b"the length is not a multiple of 512 bytes"),
        12 => (Block, b"its check is not that of its bytes"),
        13 => (Block, b"its number is not its place in the trace"),
        14 => (Block, b"its count, its byte 3 or its filling is wrong"),
        _ => (Whole, b""),
    }
}

impl<const N: usize> Draft<N> {
    fn put_name(&mut self, program: Program)
        requires { length self.old + 13 ≤ N }
        ensures text { self.new ≡ self.old ++ (name_of program ++ ascii ": ") }
        ensures long { length self.new ≤ length self.old + 13 }
    {
        match program {
            Program::RunTrace => self.put(b"runtrace: "),
            Program::PackTrace => self.put(b"packtrace: "),
            Program::UnpackTrace => self.put(b"unpacktrace: "),
            Program::ListTrace => self.put(b"listtrace: "),
            Program::ReadList => self.put(b"readlist: "),
        }
    }

    // A text and a number.
    fn put_number(&mut self, text: &[u8], number: u64, last: u8)
        requires { length self.old + (length text.now + 21) ≤ N }
        ensures text { self.new ≡ self.old ++ (text.now ++ (decimal number ++ last ∷ [])) }
        ensures long { length self.new ≤ length self.old + (length text.now + 21) }
    {
        self.put(text);
        self.put_decimal(number, last);
    }

    // A text and a word in hex.
    fn put_hex(&mut self, text: &[u8], word: u16, last: u8)
        requires { length self.old + (length text.now + 5) ≤ N }
        ensures text { self.new ≡ self.old ++ (text.now ++ (hex 4 word ++ last ∷ [])) }
        ensures long { length self.new ≡ length self.old + (length text.now + 5) }
    {
        self.put(text);
        self.put_word(word, last);
    }

    // Where it is. Index, word and pins stay apart, as `Remark` and the definitions have them.
    fn put_place(&mut self, subject: Subject, index: usize, word: u16, pins: u16)
        requires { length self.old + 45 ≤ N }
        ensures text { self.new ≡ self.old ++ place_text subject index word pins }
        ensures long { length self.new ≤ length self.old + 45 }
    {
        match subject {
            Subject::Whole => self.put(b"as a whole: "),
            Subject::Block => {
                self.put_number(b"at block ", index as u64, b':');
                self.put(b" ");
            }
            Subject::Word => {
                self.put_number(b"at cycle ", index as u64, b':');
                self.put_hex(b" the word ", word, b' ');
            }
            Subject::Pins => {
                self.put_number(b"at cycle ", index as u64, b':');
                self.put_hex(b" the pins ", pins, b' ');
            }
        }
    }

    // The number, where and why.
    fn put_refusal(&mut self, number: u8, index: usize, word: u16, pins: u16)
        requires { length self.old + 122 ≤ N }
        ensures { self.new ≡ self.old ++ refusal_text number index word pins }
    {
        let (subject, why) = meaning_of(number);
        self.put_number(b"refused ", number as u64, b' ');
        self.put_place(subject, index, word, pins);
        self.put(why);
        self.put(b"\n");
    }

    #[tactic(auto, unfolding(crate::specs::Remarks::remark_text))]
    fn put_remark(&mut self, remark: Remark)
        requires { length self.old + 122 ≤ N }
        ensures { self.new ≡ self.old ++ remark_text remark }
    {
        match remark {
            Remark::NoInput => self.put(b"standard input cannot be read\n"),
            Remark::NoOutput => self.put(b"standard output cannot be written\n"),
            Remark::Waits(word) => {
                self.put_hex(
                    b"note: the run ends waiting for the operand of ",
                    word,
                    b'\n',
                )
            }
            Remark::Marked => self.put(b"the text begins with a byte order mark\n"),
            Remark::Unnamed(count) => {
                self.put_number(b"more lines that cannot be read: ", count, b'\n')
            }
            Remark::Refusal(number, index, word, pins) => {
                self.put_refusal(number, index, word, pins)
            }
            Remark::Unread(count) => {
                self.put_number(b"lines that cannot be read: ", count, b'\n')
            }
            Remark::LongLine => self.put(b"a line is longer than 4,095 bytes\n"),
        }
    }
}

// What a program says, as a line.
pub fn remark_line(program: Program, remark: Remark, out: &mut [u8]) -> Option<usize>
    ensures { Makes (remark_line program remark) result out.old out.new }
{
    let mut line = Draft::<REMARK_BYTES>::new();
    line.put_name(program);
    line.put_remark(remark);
    line.hand_over(out)
}
