// The instruction set of the Am29C116: words and named instructions, and the one table that says which there are.
#![tactic(auto)]

use crate::parts::Fields;
use alu::Mode;
use refusals::Refusal;

mod table; // table.rt: the 27 rows
mod slots; // slots.rt: which row a word belongs to
mod parts; // parts.rt: a word's fields
mod fields; // fields.rt: a word taken apart, and what a row says of mode and fields

ghost use Rattle.std.specs.Prelude.{◌≡◌};
ghost use Rattle.choice.specs.Checks.{refusal};
ghost use Rattle.isa.specs.Fields.{mark_for, mode_of};
ghost use Rattle.isa.specs.Table.{row_at, number_of, refusal_of};
ghost use Rattle.isa.specs.Decision.{rule_only};
ghost use Rattle.isa.specs.Words.{rule_checks, named_row, decode_of, lookup_of, decoded_tells, encode_of, encoded_tells, takes_immediate};

// The families of the data sheet's summary of mnemonics, in the order of document 01's list.
#[derive(Clone, Copy)]
pub enum Family {
    Tor1,
    Rotr1,
    Rotr2,
    Rotc,
    Rotm,
    Sor,
    Bor2,
    Tor2,
    Shftr,
    Crcf,
    Crcr,
    Prt1,
    Prt2,
    Prt3,
    Svstr,
    Sonr,
    Tonr,
    Shftnr,
    Bor1,
    Bonr,
    Rotnr,
    Prtnr,
    Svstnr,
    Setst,
    Rstst,
    Test,
    Noop,
}

// A family's place in the instruction list: quadrant and modes, and the values of its fields as sets of bits.
#[derive(Clone, Copy)]
pub struct Row {
    pub family: Family,
    pub quadrant: u8,
    pub modes: u8,
    pub a: u16,
    pub b: u16,
    pub c: u32,
    // what is asked beyond the lists, by the refusal where it does not hold
    pub rule: Option<Refusal>,
    // the values with which there is an I operand: bit k for A, bit 16 + k for B
    pub immediate: u32,
}

// A named instruction. It can say what is not on the list, and is then refused.
#[derive(Clone, Copy)]
pub struct Named {
    pub family: Family,
    pub mode: Mode,
    pub a: u8,
    pub b: u8,
    pub c: u8,
}

// What a word says: its refusal, if any, and the instruction that its row and fields name, which means nothing where the word is refused.
// The instruction stands beside the refusal, because the statement of `look_up` names it of a refused word too (docs/DECISIONS.md, 48).
#[derive(Clone, Copy)]
pub struct Lookup {
    pub refusal: Option<Refusal>,
    pub named: Named,
}

// The bit of a word that stands for a mode. No `From`, because Mode is alu's.
pub fn mark_for(mode: Mode) -> u8
    ensures { result ≡ mark_for mode }
{
    match mode {
        Mode::Byte => 0,
        Mode::Word => 1,
    }
}

// And back.
pub fn mode_of(mark: u8) -> Mode
    ensures { result ≡ mode_of mark }
{
    if mark == 0 { Mode::Byte } else { Mode::Word }
}

// What a rule refuses. It goes by the fields, and the instruction is made after it, because the other way about a cycle took 269 instructions and
// 1.10 of C's time, and so it takes 254 and 0.99.
fn rule_refusal(rule: Option<Refusal>, mark: u8, a: u8, b: u8) -> Option<Refusal>
    ensures { result ≡ refusal_of (refusal (rule_checks (rule_only rule) mark a b)) }
{
    match rule {
        Some(Refusal::AccTwice) if a == 8 && b == 4 => rule,
        Some(Refusal::BitTooHigh) if mark == 0 && 7 < a => rule,
        _ => None,
    }
}

// The refusal of a word, if any, and its instruction. An unlisted word gets TOR1, the family of the row past the table, which means nothing.
pub fn look_up(word: u16) -> Lookup
    ensures { result ≡ lookup_of word }
{
    let fields = Fields::of(word);
    match fields.family() {
        None => Lookup {
            refusal: Some(Refusal::Unlisted),
            named: fields.named(Family::Tor1),
        },
        Some(family) => Lookup {
            refusal: rule_refusal(table::rule_of(family), fields.mark, fields.a, fields.b),
            named: fields.named(family),
        },
    }
}

// The instruction of a word.
pub fn decode(word: u16) -> Result<Named, Refusal>
    ensures { decoded_tells result ≡ decode_of word }
{
    let found = look_up(word);
    match found.refusal {
        None => Ok(found.named),
        Some(refusal) => Err(refusal),
    }
}

// The word of a named instruction.
pub fn encode(named: Named) -> Result<u16, Refusal>
    ensures { encoded_tells result ≡ encode_of named }
{
    let row = numbered_row(number_of(named.family));
    if !row.takes(named) {
        return Err(Refusal::Unlisted);
    }
    let mark = mark_for(named.mode);
    if let Some(refusal) = rule_refusal(row.rule, mark, named.a, named.b) {
        return Err(refusal);
    }
    let high = mark as u32 * 0x8000 + row.quadrant as u32 * 0x2000;
    let low = named.a as u32 * 0x200 + named.b as u32 * 0x20 + named.c as u32;
    Ok((high + low) as u16)
}

// Whether a word is accepted and its instruction has an I operand, so that it takes two cycles. Its row is not looked up by the decision: a run
// does that in one place, the judge, because the compiler makes a part of the cycle only of what is called once.
pub fn takes_immediate(word: u16) -> bool
    ensures { result ≡ takes_immediate word }
{
    let fields = Fields::of(word);
    match table::row_taking(&fields) {
        Some(row) => {
            let named = fields.named(row.family);
            rule_refusal(row.rule, fields.mark, fields.a, fields.b).is_none()
                && row.asks_immediate(named)
        }
        None => false,
    }
}

// The number of a family's row.
pub fn number_of(family: Family) -> u8
    ensures { result ≡ number_of family }
{
    family as u8
}

// The row of a number; past the last one a row that takes nothing, as its statement has it.
pub fn numbered_row(number: u8) -> Row
    ensures { result ≡ row_at number }
{
    match table::ROWS.get(number as usize) {
        Some(row) => *row,
        None => Row {
            family: Family::Tor1,
            quadrant: 0,
            modes: 0,
            a: 0,
            b: 0,
            c: 0,
            rule: None,
            immediate: 0,
        },
    }
}
