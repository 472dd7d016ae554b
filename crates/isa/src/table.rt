// The instruction list of document 01 as a table. The encoder and `takes_immediate` read its rows; the decoder answers a row by its family, and
// takes the rule from its column.
ghost use Rattle.std.specs.Prelude.{◌≡◌};
ghost use Rattle.isa.specs.Table.{row_at, number_of};
ghost use Rattle.isa.specs.Decision.{RowTaking};

use crate::parts::Fields;
use crate::{Family, Row};
use refusals::Refusal;

// Sets of modes, of places n and of RAM addresses.
const BYTE: u8 = 0x1;

const WORD: u8 = 0x2;

const BOTH: u8 = 0x3;

const N: u16 = 0xFFFF;

const ADDRESS: u32 = 0xFFFFFFFF;

// The rules, by the refusal: ACC is not source and mask at once; in byte mode n is at most 7.
const ONE_ACC: Option<Refusal> = Some(Refusal::AccTwice);

const BIT_IN_MODE: Option<Refusal> = Some(Refusal::BitTooHigh);

// One row per family, in the order of the families. Bit k of a set says whether k is in it.
pub(crate) const ROWS: [Row; 27] = [
    // A 0, 2, 3, 8, 10 to 12, 14, 15; B 0 to 11; C a RAM address; I with A 2, 10, 14
    Row {
        family: Family::Tor1,
        quadrant: 0,
        modes: BOTH,
        a: 0xDD0D,
        b: 0x0FFF,
        c: ADDRESS,
        rule: None,
        immediate: 0x00004404,
    },
    // A n; B 12, 14, 15; C a RAM address
    Row {
        family: Family::Rotr1,
        quadrant: 0,
        modes: BOTH,
        a: N,
        b: 0xD000,
        c: ADDRESS,
        rule: None,
        immediate: 0,
    },
    // A n; B 0, 1; C a RAM address
    Row {
        family: Family::Rotr2,
        quadrant: 1,
        modes: BOTH,
        a: N,
        b: 0x0003,
        c: ADDRESS,
        rule: None,
        immediate: 0,
    },
    // A n; B 2 to 5; C a RAM address; I with B 2, 3, 5
    Row {
        family: Family::Rotc,
        quadrant: 1,
        modes: BOTH,
        a: N,
        b: 0x003C,
        c: ADDRESS,
        rule: None,
        immediate: 0x002C0000,
    },
    // A n; B 7 to 10, 12, 14; C a RAM address; I with B 7, 9, 12, 14
    Row {
        family: Family::Rotm,
        quadrant: 1,
        modes: BOTH,
        a: N,
        b: 0x5780,
        c: ADDRESS,
        rule: None,
        immediate: 0x52800000,
    },
    // A 12 to 15; B 0, 2 to 4, 6 to 11; C a RAM address; I with B 7
    Row {
        family: Family::Sor,
        quadrant: 2,
        modes: BOTH,
        a: 0xF000,
        b: 0x0FDD,
        c: ADDRESS,
        rule: None,
        immediate: 0x00800000,
    },
    // A n; B 12 to 15; C a RAM address
    Row {
        family: Family::Bor2,
        quadrant: 2,
        modes: BOTH,
        a: N,
        b: 0xF000,
        c: ADDRESS,
        rule: BIT_IN_MODE,
        immediate: 0,
    },
    // A 1, 2, 5; B 0 to 11; C a RAM address; I with A 2, 5
    Row {
        family: Family::Tor2,
        quadrant: 2,
        modes: BOTH,
        a: 0x0026,
        b: 0x0FFF,
        c: ADDRESS,
        rule: None,
        immediate: 0x00000024,
    },
    // A 6, 7; B 0 to 2, 4 to 8; C a RAM address
    Row {
        family: Family::Shftr,
        quadrant: 2,
        modes: BOTH,
        a: 0x00C0,
        b: 0x01F7,
        c: ADDRESS,
        rule: None,
        immediate: 0,
    },
    // A 6; B 3; C a RAM address
    Row {
        family: Family::Crcf,
        quadrant: 2,
        modes: WORD,
        a: 0x0040,
        b: 0x0008,
        c: ADDRESS,
        rule: None,
        immediate: 0,
    },
    // A 6; B 9; C a RAM address
    Row {
        family: Family::Crcr,
        quadrant: 2,
        modes: WORD,
        a: 0x0040,
        b: 0x0200,
        c: ADDRESS,
        rule: None,
        immediate: 0,
    },
    // A 8, 10, 11; B 7, 9; C a RAM address
    Row {
        family: Family::Prt1,
        quadrant: 2,
        modes: BOTH,
        a: 0x0D00,
        b: 0x0280,
        c: ADDRESS,
        rule: None,
        immediate: 0,
    },
    // A 8, 10, 11; B 0, 2; C a RAM address; I with A 11
    Row {
        family: Family::Prt2,
        quadrant: 2,
        modes: BOTH,
        a: 0x0D00,
        b: 0x0005,
        c: ADDRESS,
        rule: None,
        immediate: 0x00000800,
    },
    // A 8, 10, 11; B 3, 4, 6; C a RAM address; I with A 11
    Row {
        family: Family::Prt3,
        quadrant: 2,
        modes: BOTH,
        a: 0x0D00,
        b: 0x0058,
        c: ADDRESS,
        rule: ONE_ACC,
        immediate: 0x00000800,
    },
    // A 7; B 10; C a RAM address
    Row {
        family: Family::Svstr,
        quadrant: 2,
        modes: BOTH,
        a: 0x0080,
        b: 0x0400,
        c: ADDRESS,
        rule: None,
        immediate: 0,
    },
    // A 12 to 15; B 4, 6 to 10; C 0, 1, 4, 5; I with B 7
    Row {
        family: Family::Sonr,
        quadrant: 3,
        modes: BOTH,
        a: 0xF000,
        b: 0x07D0,
        c: 0x00000033,
        rule: None,
        immediate: 0x00800000,
    },
    // A 1, 2, 5; B 0 to 11; C 0, 1, 4, 5; I with A 2, 5
    Row {
        family: Family::Tonr,
        quadrant: 3,
        modes: BOTH,
        a: 0x0026,
        b: 0x0FFF,
        c: 0x00000033,
        rule: None,
        immediate: 0x00000024,
    },
    // A 6, 7; B 0 to 2, 4 to 8; C 0, 1
    Row {
        family: Family::Shftnr,
        quadrant: 3,
        modes: BOTH,
        a: 0x00C0,
        b: 0x01F7,
        c: 0x00000003,
        rule: None,
        immediate: 0,
    },
    // A n; B 13 to 15; C a RAM address
    Row {
        family: Family::Bor1,
        quadrant: 3,
        modes: BOTH,
        a: N,
        b: 0xE000,
        c: ADDRESS,
        rule: BIT_IN_MODE,
        immediate: 0,
    },
    // A n; B 12; C 0 to 2, 4 to 7, 16 to 18, 20 to 23
    Row {
        family: Family::Bonr,
        quadrant: 3,
        modes: BOTH,
        a: N,
        b: 0x1000,
        c: 0x00F700F7,
        rule: BIT_IN_MODE,
        immediate: 0,
    },
    // A n; B 12; C 24, 25, 28, 29
    Row {
        family: Family::Rotnr,
        quadrant: 3,
        modes: BOTH,
        a: N,
        b: 0x1000,
        c: 0x33000000,
        rule: None,
        immediate: 0,
    },
    // A 8, 10, 11; B 4, 6; C 0, 1; I with A 11
    Row {
        family: Family::Prtnr,
        quadrant: 3,
        modes: BOTH,
        a: 0x0D00,
        b: 0x0050,
        c: 0x00000003,
        rule: ONE_ACC,
        immediate: 0x00000800,
    },
    // A 7; B 10; C 0, 1
    Row {
        family: Family::Svstnr,
        quadrant: 3,
        modes: BOTH,
        a: 0x0080,
        b: 0x0400,
        c: 0x00000003,
        rule: None,
        immediate: 0,
    },
    // A 11; B 10; C 3, 5, 6, 9, 10
    Row {
        family: Family::Setst,
        quadrant: 3,
        modes: BYTE,
        a: 0x0800,
        b: 0x0400,
        c: 0x00000668,
        rule: None,
        immediate: 0,
    },
    // A 10; B 10; C 3, 5, 6, 9, 10
    Row {
        family: Family::Rstst,
        quadrant: 3,
        modes: BYTE,
        a: 0x0400,
        b: 0x0400,
        c: 0x00000668,
        rule: None,
        immediate: 0,
    },
    // A 9; B 10; C 0, 2, 4, 6, 8, 10, 12, 14, 16, 18, 20, 22
    Row {
        family: Family::Test,
        quadrant: 3,
        modes: BYTE,
        a: 0x0200,
        b: 0x0400,
        c: 0x00555555,
        rule: None,
        immediate: 0,
    },
    // A 8; B 10; C 0
    Row {
        family: Family::Noop,
        quadrant: 3,
        modes: BYTE,
        a: 0x0100,
        b: 0x0400,
        c: 0x00000001,
        rule: None,
        immediate: 0,
    },
];

// The row that takes a word's fields, if any: by the table itself, row by row.
pub(crate) fn row_taking(fields: &Fields) -> Option<Row>
    ensures { RowTaking fields.now result }
{
    ROWS.iter().find(|row| row.takes_fields(fields)).copied()
}

// The column of rules, as a match: a constant array is copied at each use, and a run looks up a word in every cycle.
pub(crate) fn rule_of(family: Family) -> Option<Refusal>
    ensures { result ≡ (row_at (number_of family)).rule }
{
    match family {
        Family::Bor2 | Family::Bor1 | Family::Bonr => BIT_IN_MODE,
        Family::Prt3 | Family::Prtnr => ONE_ACC,
        _ => None,
    }
}
