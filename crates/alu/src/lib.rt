// One operation at a width: the arithmetic of the Am29C116, the same for bytes and words. `perform` is every operation of document 01's
// "What the instructions do" that computes from operands, and `write_back` is what a destination holds afterwards.
#![tactic(auto)]

mod flags;
mod logic;
mod priority;
mod rotates;
mod shifts;
mod sums;
mod width;

ghost use Rattle.std.specs.Prelude.{◌≡◌};
ghost use Rattle.alu.specs.Width.{width_of, write_back};
ghost use Rattle.alu.specs.Operations.{outcome_of};

use flags::Setting;

// Bit 15 of a word: how wide the instruction works.
#[derive(Clone, Copy, Debug, PartialEq, Eq)]
pub enum Mode {
    Byte,
    Word,
}

// Operations 0 to 11.
#[derive(Clone, Copy, Debug, PartialEq, Eq)]
pub enum TwoOperandKind {
    SMinusR,
    SMinusRWithCarry,
    RMinusS,
    RMinusSWithCarry,
    RPlusS,
    RPlusSWithCarry,
    And,
    Nand,
    Xor,
    Nor,
    Or,
    Xnor,
}

// MOVE, COMP, INC and NEG.
#[derive(Clone, Copy, Debug, PartialEq, Eq)]
pub enum OneOperandKind {
    Move,
    Complement,
    Increment,
    Negate,
}

// What is done with bit n, or with 2^n.
#[derive(Clone, Copy, Debug, PartialEq, Eq)]
pub enum BitKind {
    SetBit,
    ResetBit,
    TestBit,
    LoadBit,
    LoadBitComplement,
    AddBit,
    SubtractBit,
}

// Which way a shift goes, and what comes in.
#[derive(Clone, Copy, Debug, PartialEq, Eq)]
pub enum ShiftKind {
    UpWithZero,
    UpWithOne,
    UpWithLink,
    DownWithZero,
    DownWithOne,
    DownWithLink,
    DownWithC,
    DownWithNXorOvr,
}

// One operation with its operands. Only their parts at the width count, and n counts modulo the width.
#[derive(Clone, Copy, Debug, PartialEq, Eq)]
pub enum Operation {
    TwoOperand {
        kind: TwoOperandKind,
        r: u16,
        s: u16,
    },
    OneOperand {
        kind: OneOperandKind,
        source: u16,
    },
    Bit {
        kind: BitKind,
        n: u8,
        source: u16,
    },
    Shift {
        kind: ShiftKind,
        source: u16,
    },
    Rotate {
        n: u8,
        source: u16,
    },
    Merge {
        n: u8,
        u: u16,
        r: u16,
        mask: u16,
    },
    Compare {
        n: u8,
        u: u16,
        r: u16,
        mask: u16,
    },
    Prioritize {
        source: u16,
        mask: u16,
    },
    CrcForward {
        register: u16,
        acc: u16,
    },
    CrcReverse {
        register: u16,
        acc: u16,
    },
}

// What an operation puts on Y, below the width, and the whole status after it.
#[derive(Clone, Copy, Debug, PartialEq, Eq)]
pub struct Outcome {
    pub result: u16,
    pub status: u8,
}

pub fn perform(mode: Mode, operation: Operation, status: u8) -> Outcome
    ensures { result ≡ outcome_of (width_of mode) operation status }
{
    let setting = Setting { mode, status };
    match operation {
        Operation::TwoOperand { kind, r, s } => setting.two_operand(kind, r, s),
        Operation::OneOperand { kind, source } => setting.one_operand(kind, source),
        Operation::Bit { kind, n, source } => setting.bit_operation(kind, n, source),
        Operation::Shift { kind, source } => setting.shift(kind, source),
        Operation::Rotate { n, source } => setting.rotate(n, source),
        Operation::Merge { n, u, r, mask } => setting.merge(n, u, r, mask),
        Operation::Compare { n, u, r, mask } => setting.compare(n, u, r, mask),
        Operation::Prioritize { source, mask } => setting.prioritize(source, mask),
        Operation::CrcForward { register, acc } => setting.crc_forward(register, acc),
        Operation::CrcReverse { register, acc } => setting.crc_reverse(register, acc),
    }
}

// The word that a destination holds after a result is written to it: its part above the width stays.
#[tactic(auto, unfolding(crate::specs::Width::write_back))]
pub fn write_back(mode: Mode, old: u16, res: u16) -> u16
    ensures { result ≡ write_back (width_of mode) old res }
{
    let size = mode.size();
    let kept = old as u32 / size * size;
    (kept + mode.low(res as u32) as u32) as u16
}
