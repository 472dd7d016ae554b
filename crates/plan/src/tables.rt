// What single fields stand for. Each function is a table of specs/Tables.antt, said value by value.
ghost use Rattle.std.specs.Prelude.{◌≡◌};
ghost use Rattle.plan.specs.Tables.{at, two_operands, one_operands, shifts, bor2_bits, bor1_bits, bonr_bits, status_bits, ram_pair_r, ram_pair_s, pair_r, pair_s, sources, prt1_source, mask_source, rotate_u, rotate_r, rotate_mask, shift_source, bonr_source, rotnr_source, ram_pair_to, rotr1_to, sor_to, prt1_to, prt2_to, no_ram_to, back, bit_to, rotnr_to};
ghost use Rattle.plan.specs.Plans.{two, three};

use crate::{Destination, Operands, Source, two};
use alu::{BitKind, OneOperandKind, ShiftKind, TwoOperandKind};

// Field B of TOR1, TOR2 and TONR.
pub(crate) fn two_operand_kind(b: u8) -> TwoOperandKind
    ensures { result ≡ at two_operands b }
{
    match b {
        0 => TwoOperandKind::SMinusR,
        1 => TwoOperandKind::SMinusRWithCarry,
        2 => TwoOperandKind::RMinusS,
        3 => TwoOperandKind::RMinusSWithCarry,
        4 => TwoOperandKind::RPlusS,
        5 => TwoOperandKind::RPlusSWithCarry,
        6 => TwoOperandKind::And,
        7 => TwoOperandKind::Nand,
        8 => TwoOperandKind::Xor,
        9 => TwoOperandKind::Nor,
        10 => TwoOperandKind::Or,
        _ => TwoOperandKind::Xnor,
    }
}

// Field A of SOR and SONR.
pub(crate) fn one_operand_kind(a: u8) -> OneOperandKind
    ensures { result ≡ at one_operands a }
{
    match a {
        13 => OneOperandKind::Complement,
        14 => OneOperandKind::Increment,
        15 => OneOperandKind::Negate,
        _ => OneOperandKind::Move,
    }
}

// Field B of SHFTR and SHFTNR.
pub(crate) fn shift_kind(b: u8) -> ShiftKind
    ensures { result ≡ at shifts b }
{
    match b {
        1 => ShiftKind::UpWithOne,
        2 => ShiftKind::UpWithLink,
        4 => ShiftKind::DownWithZero,
        5 => ShiftKind::DownWithOne,
        6 => ShiftKind::DownWithLink,
        7 => ShiftKind::DownWithC,
        8 => ShiftKind::DownWithNXorOvr,
        _ => ShiftKind::UpWithZero,
    }
}

// Field B of BOR2.
pub(crate) fn bor2_kind(b: u8) -> BitKind
    ensures { result ≡ at bor2_bits b }
{
    match b {
        13 => BitKind::LoadBitComplement,
        14 => BitKind::AddBit,
        15 => BitKind::SubtractBit,
        _ => BitKind::LoadBit,
    }
}

// Field B of BOR1.
pub(crate) fn bor1_kind(b: u8) -> BitKind
    ensures { result ≡ at bor1_bits b }
{
    match b {
        14 => BitKind::ResetBit,
        15 => BitKind::TestBit,
        _ => BitKind::SetBit,
    }
}

// Field C of BONR.
pub(crate) fn bonr_kind(c: u8) -> BitKind
    ensures { result ≡ at bonr_bits c }
{
    match c {
        1 | 17 => BitKind::ResetBit,
        2 | 18 => BitKind::SetBit,
        4 | 20 => BitKind::AddBit,
        5 | 21 => BitKind::SubtractBit,
        6 | 22 => BitKind::LoadBit,
        7 | 23 => BitKind::LoadBitComplement,
        _ => BitKind::TestBit,
    }
}

// Field C of SETST and RSTST: the status bits.
pub(crate) fn status_bits(c: u8) -> u8
    ensures { result ≡ at status_bits c }
{
    match c {
        3 => 0x0F,
        5 => 0x10,
        6 => 0x20,
        9 => 0x40,
        10 => 0x80,
        _ => 0,
    }
}

// Field A of TOR1: R and S.
pub(crate) fn ram_pair(a: u8) -> Operands
    ensures { result ≡ two (at ram_pair_r a) (at ram_pair_s a) }
{
    match a {
        2 | 10 | 14 => two(Source::Ram, Source::Immediate),
        3 | 11 | 15 => two(Source::Latch, Source::Ram),
        _ => two(Source::Ram, Source::Acc),
    }
}

// Field A of TOR2 and TONR: R and S.
pub(crate) fn pair(a: u8) -> Operands
    ensures { result ≡ two (at pair_r a) (at pair_s a) }
{
    match a {
        1 => two(Source::Latch, Source::Acc),
        2 => two(Source::Acc, Source::Immediate),
        _ => two(Source::Latch, Source::Immediate),
    }
}

// Field B of SOR, SONR, PRT3 and PRTNR: the source.
pub(crate) fn source_at(b: u8) -> Source
    ensures { result ≡ at sources b }
{
    match b {
        0 | 2 | 3 | 11 => Source::Ram,
        4 => Source::Acc,
        6 => Source::Latch,
        7 => Source::Immediate,
        9 => Source::LatchZeroExtended,
        10 => Source::LatchSignExtended,
        _ => Source::Zero,
    }
}

// Field B of PRT1: the source.
pub(crate) fn prt1_source(b: u8) -> Source
    ensures { result ≡ at prt1_source b }
{
    match b {
        7 => Source::Acc,
        _ => Source::Latch,
    }
}

// Field A of PRT2, PRT3 and PRTNR: the mask.
pub(crate) fn mask_source(a: u8) -> Source
    ensures { result ≡ at mask_source a }
{
    match a {
        8 => Source::Acc,
        11 => Source::Immediate,
        _ => Source::Zero,
    }
}

// Field B of ROTR2, ROTC and ROTM: U.
pub(crate) fn rotate_u(b: u8) -> Source
    ensures { result ≡ at rotate_u b }
{
    match b {
        0 | 12 => Source::Acc,
        5 | 14 => Source::Ram,
        _ => Source::Latch,
    }
}

// Field B of ROTC and ROTM: R.
pub(crate) fn rotate_r(b: u8) -> Source
    ensures { result ≡ at rotate_r b }
{
    match b {
        3 | 4 | 9 | 10 | 12 => Source::Ram,
        _ => Source::Acc,
    }
}

// Field B of ROTC and ROTM: the mask.
pub(crate) fn rotate_mask(b: u8) -> Source
    ensures { result ≡ at rotate_mask b }
{
    match b {
        4 | 10 => Source::Acc,
        8 => Source::Ram,
        _ => Source::Immediate,
    }
}

// Field B of ROTC and ROTM: U, R and the mask. They stay three tables, because ROTR2 asks for U alone.
pub(crate) fn rotate_operands(b: u8) -> Operands
    ensures { result ≡ three (at rotate_u b) (at rotate_r b) (at rotate_mask b) }
{
    Operands {
        first: rotate_u(b),
        second: rotate_r(b),
        mask: rotate_mask(b),
    }
}

// Field A of SHFTR and SHFTNR: the source, which at 6 is the family's own.
pub(crate) fn shift_source(own: Source, a: u8) -> Source
    ensures { result ≡ at (shift_source own) a }
{
    if a == 6 { own } else { Source::Latch }
}

// Where a merge's R or a bit operation's source is written back.
pub(crate) fn back_to(source: Source) -> Destination
    ensures { result ≡ back source }
{
    match source {
        Source::Ram => Destination::ToRam,
        Source::Acc => Destination::ToAcc,
        _ => Destination::ToY,
    }
}

// Where a bit operation goes.
pub(crate) fn bit_to(kind: BitKind, source: Source) -> Destination
    ensures { result ≡ bit_to kind source }
{
    match kind {
        BitKind::TestBit => Destination::ToY,
        _ => back_to(source),
    }
}

// Field C of BONR: the source.
pub(crate) fn bonr_source(c: u8) -> Source
    ensures { result ≡ at bonr_source c }
{
    match c {
        0..=2 | 4..=7 => Source::Acc,
        _ => Source::Latch,
    }
}

// Field C of ROTNR: the source.
pub(crate) fn rotnr_source(c: u8) -> Source
    ensures { result ≡ at rotnr_source c }
{
    match c {
        24 | 25 => Source::Latch,
        _ => Source::Acc,
    }
}

// Field A of TOR1: the destination.
pub(crate) fn ram_pair_to(a: u8) -> Destination
    ensures { result ≡ at ram_pair_to a }
{
    match a {
        8 | 10 | 11 => Destination::ToY,
        12 | 14 | 15 => Destination::ToRam,
        _ => Destination::ToAcc,
    }
}

// Field B of ROTR1: the destination.
pub(crate) fn rotr1_to(b: u8) -> Destination
    ensures { result ≡ at rotr1_to b }
{
    match b {
        14 => Destination::ToY,
        15 => Destination::ToRam,
        _ => Destination::ToAcc,
    }
}

// Field B of SOR: the destination.
pub(crate) fn sor_to(b: u8) -> Destination
    ensures { result ≡ at sor_to b }
{
    match b {
        0 => Destination::ToAcc,
        2 => Destination::ToY,
        3 => Destination::ToStatus,
        _ => Destination::ToRam,
    }
}

// Field A of PRT1: the destination.
pub(crate) fn prt1_to(a: u8) -> Destination
    ensures { result ≡ at prt1_to a }
{
    match a {
        10 => Destination::ToY,
        11 => Destination::ToRam,
        _ => Destination::ToAcc,
    }
}

// Field B of PRT2: the destination.
pub(crate) fn prt2_to(b: u8) -> Destination
    ensures { result ≡ at prt2_to b }
{
    match b {
        2 => Destination::ToY,
        _ => Destination::ToAcc,
    }
}

// Field C of SONR, TONR, SHFTNR, PRTNR and SVSTNR: the destination.
pub(crate) fn no_ram_to(c: u8) -> Destination
    ensures { result ≡ at no_ram_to c }
{
    match c {
        1 => Destination::ToAcc,
        4 => Destination::ToStatus,
        5 => Destination::ToAccAndStatus,
        _ => Destination::ToY,
    }
}

// Field C of ROTNR: the destination.
pub(crate) fn rotnr_to(c: u8) -> Destination
    ensures { result ≡ at rotnr_to c }
{
    match c {
        25 | 29 => Destination::ToAcc,
        _ => Destination::ToY,
    }
}
