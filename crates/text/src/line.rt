// What a byte does to the line that is being read.
ghost use Rattle.std.specs.Prelude.{◌≡◌};
ghost use Rattle.text.specs.Lines.{move, fault, or_end, over, begun, with_digit, one_word_more, grown, move_of};

use crate::{Expected, Kind, Met, Move, Place, WORDS_PER_LINE};

// A word has four digits: those before its last.
const LAST_DIGIT: u8 = 3;

fn move_to(place: Place, words: usize, met: Met) -> Move
    ensures { result ≡ move place words met }
{
    Move { place, words, met }
}

// A fault: the rest of the line is passed over.
fn fault(words: usize, expected: Expected) -> Move
    ensures { result ≡ fault words expected }
{
    move_to(Place::Rest, words, Met::Fault(expected))
}

// No word stands after the last one of a line.
fn or_end(words: usize, expected: Expected) -> Expected
    ensures { result ≡ or_end words expected }
{
    if words < WORDS_PER_LINE {
        expected
    } else {
        Expected::LineEnd
    }
}

// The words of a line are over: it has none, or all of them.
fn over(words: usize) -> Move
    ensures { result ≡ over words }
{
    if words == 0 || words >= WORDS_PER_LINE {
        move_to(Place::Rest, words, Met::Nothing)
    } else {
        fault(words, Expected::Word)
    }
}

// A digit where a word may begin.
fn begun(words: usize, digit: u8) -> Move
    ensures { result ≡ begun words digit }
{
    if words < WORDS_PER_LINE {
        move_to(Place::Within(1, digit as u16), words, Met::Nothing)
    } else {
        fault(words, Expected::LineEnd)
    }
}

// A value with one more digit below it.
fn with_digit(value: u16, digit: u8) -> u16
    ensures { result ≡ with_digit value digit }
{
    value % 4096 * 16 + (digit % 16) as u16
}

fn one_word_more(words: usize) -> usize
    ensures { result ≡ one_word_more words }
{
    if words < WORDS_PER_LINE {
        words + 1
    } else {
        words
    }
}

// A digit of a word that is begun.
fn grown(digits: u8, value: u16, words: usize, digit: u8) -> Move
    ensures { result ≡ grown digits value words digit }
{
    let longer = with_digit(value, digit);
    if digits < LAST_DIGIT {
        move_to(Place::Within(digits + 1, longer), words, Met::Nothing)
    } else {
        move_to(Place::After, one_word_more(words), Met::Word(longer))
    }
}

// By the place in the line, how many of its words are read, and what the byte is.
#[tactic(auto, unfolding(crate::specs::Lines::move_of))]
pub(crate) fn move_of(place: Place, words: usize, kind: Kind) -> Move
    ensures { result ≡ move_of place words kind }
{
    match (place, kind) {
        (Place::Between | Place::After, Kind::Over) => over(words),
        (Place::Between | Place::After, Kind::Blank) => {
            move_to(Place::Between, words, Met::Nothing)
        }
        (Place::Between, Kind::Digit(digit)) => begun(words, digit),
        (Place::Between, Kind::Other) => fault(words, or_end(words, Expected::Digit)),
        (Place::Within(digits, value), Kind::Digit(digit)) => grown(digits, value, words, digit),
        (Place::Within(_, _), _) => fault(words, Expected::Digit),
        (Place::After, Kind::Digit(_) | Kind::Other) => {
            fault(words, or_end(words, Expected::Blank))
        }
        (Place::Rest, _) => move_to(Place::Rest, words, Met::Nothing),
    }
}
