// Prints the outcome of every operation at both widths over corner operands: a line for a mode, an operation, a status and all operands
// but the last, with ten outcomes, one for each value of the last.
#![tactic(auto)]

use alu::{BitKind, Mode, OneOperandKind, Operation, Outcome, ShiftKind, TwoOperandKind};
use std::io;
use streams::Regardless;

const TWO_OPERANDS: [(TwoOperandKind, &str); 12] = [
    (TwoOperandKind::SMinusR, "SUBR"),
    (TwoOperandKind::SMinusRWithCarry, "SUBRC"),
    (TwoOperandKind::RMinusS, "SUBS"),
    (TwoOperandKind::RMinusSWithCarry, "SUBSC"),
    (TwoOperandKind::RPlusS, "ADD"),
    (TwoOperandKind::RPlusSWithCarry, "ADDC"),
    (TwoOperandKind::And, "AND"),
    (TwoOperandKind::Nand, "NAND"),
    (TwoOperandKind::Xor, "EXOR"),
    (TwoOperandKind::Nor, "NOR"),
    (TwoOperandKind::Or, "OR"),
    (TwoOperandKind::Xnor, "EXNOR"),
];

const ONE_OPERANDS: [(OneOperandKind, &str); 4] = [
    (OneOperandKind::Move, "MOVE"),
    (OneOperandKind::Complement, "COMP"),
    (OneOperandKind::Increment, "INC"),
    (OneOperandKind::Negate, "NEG"),
];

const BITS: [(BitKind, &str); 7] = [
    (BitKind::SetBit, "SETN"),
    (BitKind::ResetBit, "RSTN"),
    (BitKind::TestBit, "TSTN"),
    (BitKind::LoadBit, "LD2N"),
    (BitKind::LoadBitComplement, "LDC2N"),
    (BitKind::AddBit, "A2N"),
    (BitKind::SubtractBit, "S2N"),
];

const SHIFTS: [(ShiftKind, &str); 8] = [
    (ShiftKind::UpWithZero, "SHUPZ"),
    (ShiftKind::UpWithOne, "SHUP1"),
    (ShiftKind::UpWithLink, "SHUPL"),
    (ShiftKind::DownWithZero, "SHDNZ"),
    (ShiftKind::DownWithOne, "SHDN1"),
    (ShiftKind::DownWithLink, "SHDNL"),
    (ShiftKind::DownWithC, "SHDNC"),
    (ShiftKind::DownWithNXorOvr, "SHDNOV"),
];

const CORNERS: [u16; 10] = [
    0x0000, 0x0001, 0x007F, 0x0080, 0x00FF, 0x0100, 0x7FFF, 0x8000, 0xFF00, 0xFFFF,
];

// Two statuses in which every bit is once 0 and once 1.
const TWO_STATUSES: [u8; 2] = [0x59, 0xA6];

// Four in which C, LINK and N xor OVR are told apart.
const FOUR_STATUSES: [u8; 4] = [0x00, 0xFF, 0xA6, 0x59];

// Merge and compare are tried at two places, each with a status of its own.
const MASKED: [(u8, u8); 2] = [(0xA6, 4), (0x59, 9)];

fn letter(mode: Mode) -> &'static str {
    match mode {
        Mode::Byte => "B",
        Mode::Word => "W",
    }
}

// The rest of a line: the outcome with each last operand.
fn outcomes<F: Fn(u16) -> Operation>(
    rt: &impl Print,
    mode: Mode,
    old: u8,
    operation: F,
) -> io::Result<()>
    requires { F.IsAlwaysCallable operation }
{
    print!(rt; ":")?;
    for last in CORNERS {
        let Outcome { result, status } = alu::perform(mode, operation(last), old);
        print!(rt; " {result:04X}/{status:02X}")?;
    }
    println!(rt; "")
}

fn two_operands(rt: &impl Print, mode: Mode) -> io::Result<()> {
    let letter = letter(mode);
    for (kind, name) in TWO_OPERANDS {
        for old in TWO_STATUSES {
            for r in CORNERS {
                print!(rt; "{letter} {name} {old:02X} {r:04X}")?;
                outcomes(rt, mode, old, |s| Operation::TwoOperand { kind, r, s })?;
            }
        }
    }
    Ok(())
}

fn one_operands(rt: &impl Print, mode: Mode) -> io::Result<()> {
    let letter = letter(mode);
    for (kind, name) in ONE_OPERANDS {
        for old in TWO_STATUSES {
            print!(rt; "{letter} {name} {old:02X}")?;
            outcomes(
                rt,
                mode,
                old,
                |source| Operation::OneOperand { kind, source },
            )?;
        }
    }
    Ok(())
}

// A byte has no bit 8.
fn bits(rt: &impl Print, mode: Mode) -> io::Result<()> {
    let letter = letter(mode);
    let width: u8 = match mode {
        Mode::Byte => 8,
        Mode::Word => 16,
    };
    for (kind, name) in BITS {
        for old in TWO_STATUSES {
            for n in 0..width {
                print!(rt; "{letter} {name} {old:02X} {n}")?;
                outcomes(rt, mode, old, |source| Operation::Bit { kind, n, source })?;
            }
        }
    }
    Ok(())
}

fn shifts(rt: &impl Print, mode: Mode) -> io::Result<()> {
    let letter = letter(mode);
    for (kind, name) in SHIFTS {
        for old in FOUR_STATUSES {
            print!(rt; "{letter} {name} {old:02X}")?;
            outcomes(rt, mode, old, |source| Operation::Shift { kind, source })?;
        }
    }
    Ok(())
}

fn rotates(rt: &impl Print, mode: Mode) -> io::Result<()> {
    let letter = letter(mode);
    for old in TWO_STATUSES {
        for n in 0..16u8 {
            print!(rt; "{letter} ROT {old:02X} {n}")?;
            outcomes(rt, mode, old, |source| Operation::Rotate { n, source })?;
        }
    }
    Ok(())
}

fn masked<F: Fn(u8, u16, u16, u16) -> Operation>(
    rt: &impl Print,
    mode: Mode,
    name: &str,
    operation: F,
) -> io::Result<()>
    requires { F.IsAlwaysCallable operation }
{
    let letter = letter(mode);
    for (old, n) in MASKED {
        for u in CORNERS {
            for r in CORNERS {
                print!(rt; "{letter} {name} {old:02X} {n} {u:04X} {r:04X}")?;
                outcomes(rt, mode, old, |mask| operation(n, u, r, mask))?;
            }
        }
    }
    Ok(())
}

fn priorities(rt: &impl Print, mode: Mode) -> io::Result<()> {
    let letter = letter(mode);
    for old in TWO_STATUSES {
        for source in CORNERS {
            print!(rt; "{letter} PRT {old:02X} {source:04X}")?;
            outcomes(rt, mode, old, |mask| Operation::Prioritize { source, mask })?;
        }
    }
    Ok(())
}

fn checks<F: Fn(u16, u16) -> Operation>(
    rt: &impl Print,
    mode: Mode,
    name: &str,
    operation: F,
) -> io::Result<()>
    requires { F.IsAlwaysCallable operation }
{
    let letter = letter(mode);
    for old in FOUR_STATUSES {
        for register in CORNERS {
            print!(rt; "{letter} {name} {old:02X} {register:04X}")?;
            outcomes(rt, mode, old, |acc| operation(register, acc))?;
        }
    }
    Ok(())
}

// A result written over an old word.
fn writes(rt: &impl Print, mode: Mode) -> io::Result<()> {
    let letter = letter(mode);
    for old in CORNERS {
        print!(rt; "{letter} PUT {old:04X}:")?;
        for result in CORNERS {
            let word = alu::write_back(mode, old, result);
            print!(rt; " {word:04X}")?;
        }
        println!(rt; "")?;
    }
    Ok(())
}

// Checks are stepped in words only.
fn blocks(rt: &impl Print, mode: Mode) -> io::Result<()> {
    two_operands(rt, mode)?;
    one_operands(rt, mode)?;
    bits(rt, mode)?;
    shifts(rt, mode)?;
    rotates(rt, mode)?;
    masked(
        rt,
        mode,
        "ROTM",
        |n, u, r, mask| Operation::Merge { n, u, r, mask },
    )?;
    masked(
        rt,
        mode,
        "ROTC",
        |n, u, r, mask| Operation::Compare { n, u, r, mask },
    )?;
    priorities(rt, mode)?;
    if mode == Mode::Word {
        checks(
            rt,
            mode,
            "CRCF",
            |register, acc| Operation::CrcForward { register, acc },
        )?;
        checks(
            rt,
            mode,
            "CRCR",
            |register, acc| Operation::CrcReverse { register, acc },
        )?;
    }
    writes(rt, mode)
}

fn print_blocks(rt: &impl Print) -> io::Result<()> {
    blocks(rt, Mode::Byte)?;
    blocks(rt, Mode::Word)
}

// Where something cannot be printed there is nobody to tell, and what follows is printed all the same.
fn main(rt: HostRuntime) {
    let _ = print_blocks(&Regardless { to: &rt });
}
