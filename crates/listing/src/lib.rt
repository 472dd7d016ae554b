// Instruction words as lines of names and numbers, and immediate data as lines of hex digits; and back (document 02, request 1).
#![tactic(auto)]

use isa::Named;
use refusals::{Refusal, Refused};

mod names; // names.rt: the names and the numbers, list by list
mod places; // places.rt: how each family writes its fields
mod items; // items.rt: an item, and a line that is being read
mod reading; // reading.rt: what is read of a line, item by item
mod writing; // writing.rt: texts put into lent bytes
mod digits; // digits.rt: four hex digits

ghost use Rattle.std.specs.Prelude.{◌≡◌};
ghost use Rattle.listing.specs.Lines.{field_texts, text_of, texts_of, word_of};
ghost use Rattle.listing.specs.Data.{data_of};
ghost use Rattle.listing.specs.Answers.{printed_tells, read_tells, outcome, print_into, data_into};
ghost use Rattle.listing.specs.Told.{place_told, field_told, text_told, texts_told};

use crate::items::Items;
use crate::places::Place;
use crate::writing::Texts;

// No line of a word has more bytes, and no line of data.
pub const LINE_BYTES: usize = 23;

pub const DATA_BYTES: usize = 4;

// The text of a value at a place; no text where the place has none for it.
fn text_of(place: Place, value: u8) -> &'static [u8]
    ensures { result.now ≡ text_of (place_told place) value }
{
    names::text_in(place.names, value).unwrap_or(b"")
}

// The text of a field, if it is written.
fn field_text(place: Option<Place>, value: u8) -> Option<&'static [u8]>
    ensures { text_told result ≡ field_texts (field_told place) value }
{
    place.map(|place| text_of(place, value))
}

fn texts_of(named: Named) -> Texts
    ensures { texts_told result ≡ texts_of named }
{
    let form = places::form_of(named.family);
    Texts {
        family: text_of(places::family(), isa::number_of(named.family)),
        mode: text_of(places::mode(), isa::mark_for(named.mode)),
        a: field_text(form.a, named.a),
        b: field_text(form.b, named.b),
        c: field_text(form.c, named.c),
    }
}

// The line of a word, into lent bytes.
pub fn line_of(word: u16, out: &mut [u8]) -> Result<usize, Refusal>
    ensures { outcome (printed_tells result) out.new ≡ print_into word out.old }
{
    let texts = texts_of(isa::decode(word)?);
    let mut line = [0u8; LINE_BYTES];
    let size = writing::join(texts, &mut line);
    writing::fill(&line[..size], out)
}

// The word of a line.
pub fn word_of(line: &[u8]) -> Result<u16, Refused>
    ensures { read_tells result ≡ word_of line.now }
{
    let mut items = Items::of(line);
    let number = items.expect(places::family())?;
    let mark = items.expect(places::mode())?;
    let row = isa::numbered_row(number);
    let form = places::form_of(row.family);
    let a = items.field(form.a, u32::from(row.a))?;
    let b = items.field(form.b, u32::from(row.b))?;
    let c = items.field(form.c, row.c)?;
    items.end()?;
    Ok(isa::encode(Named {
        family: row.family,
        mode: isa::mode_of(mark),
        a,
        b,
        c,
    })?)
}

// The line of immediate data, into lent bytes.
pub fn data_line(operand: u16, out: &mut [u8]) -> Result<usize, Refusal>
    ensures { outcome (printed_tells result) out.new ≡ data_into operand out.old }
{
    writing::fill(&digits::digits_of(operand), out)
}

// The immediate data of a line.
pub fn data_of(line: &[u8]) -> Result<u16, Refused>
    ensures { read_tells result ≡ data_of line.now }
{
    let mut items = Items::of(line);
    let data = items.data()?;
    items.end()?;
    Ok(data)
}
