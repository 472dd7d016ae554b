// Which row a word belongs to: a decision over the quadrant and fields A and B, its slot, and then over field C.
// A row is answered by its family. `slot_of mark quadrant A B` is the slot's number; `Along test n rule x r` says that r is the rule at x,
// for x below n. A decision that is the same for several marks or values is said of one of them, and the caller's proof carries
// it to the others.
ghost use Rattle.std.specs.Prelude.{◌≡◌, ◌<◌, ◌≤◌, eqb};
ghost use Rattle.choice.specs.Along.{Along, same};
ghost use Rattle.isa.specs.declared.Family.TheVariants.{Bonr};
ghost use Rattle.isa.specs.Sets.{has};
ghost use Rattle.choice.specs.Pick.{pick};
ghost use Rattle.isa.specs.Table.{number_of, no_row, shifts, destinations, y_or_acc, flags, twice_codes};
ghost use Rattle.isa.specs.Slots.{with_c, row_of};
ghost use Rattle.isa.specs.Decision.{slot_of, sharing, row_number, RowIs};

use crate::Family;
use crate::parts::Fields;

// Quadrant 0 with B up to 11 (said of B 0 in byte mode): the pairs of TOR1.
fn two_operand_0(a: u8) -> Option<Family>
    ensures { Along eqb 16 (λ k. slot_of 0 0 k 0) a (row_number result) }
{
    match a {
        0 | 2..=3 | 8 | 10..=12 | 14..=15 => Some(Family::Tor1),
        _ => None,
    }
}

// Quadrant 1, where A is n (said of A 0 in byte mode).
fn quadrant_1(b: u8) -> Option<Family>
    ensures { Along eqb 16 (λ k. slot_of 0 1 0 k) b (row_number result) }
{
    match b {
        0..=1 => Some(Family::Rotr2),
        2..=5 => Some(Family::Rotc),
        7..=10 | 12 | 14 => Some(Family::Rotm),
        _ => None,
    }
}

// Field B of SHFTR and SHFTNR.
fn is_shift(b: u8) -> bool
    ensures { Along same 12 (has shifts) b result }
{
    matches!(b, 0..=2 | 4..=8)
}

// With A 7: a shift, or save status.
fn shift_or_save(b: u8, shift: Family, save: Family) -> Option<Family>
    requires { b < 12 }
    ensures { row_number result ≡ pick (eqb b 10) (number_of save) (pick (has shifts b) (number_of shift) no_row) }
{
    if b == 10 {
        Some(save)
    } else {
        is_shift(b).then_some(shift)
    }
}

// Quadrant 2 with A 6 in word mode: shifts and the steps of a check.
fn shift_or_check_2(b: u8) -> Option<Family>
    ensures { Along eqb 12 (λ k. slot_of 1 2 6 k) b (row_number result) }
{
    match b {
        0..=2 | 4..=8 => Some(Family::Shftr),
        3 => Some(Family::Crcf),
        9 => Some(Family::Crcr),
        _ => None,
    }
}

// Quadrant 2 with A 8, 10 or 11 (said of A 8 in byte mode): prioritize.
fn prioritize_2(b: u8) -> Option<Family>
    ensures { Along eqb 12 (λ k. slot_of 0 2 8 k) b (row_number result) }
{
    match b {
        0 | 2 => Some(Family::Prt2),
        3..=4 | 6 => Some(Family::Prt3),
        7 | 9 => Some(Family::Prt1),
        _ => None,
    }
}

// Quadrant 2 with A 12 to 15 (said of A 12 in byte mode): one operand.
fn one_operand_2(b: u8) -> Option<Family>
    ensures { Along eqb 12 (λ k. slot_of 0 2 12 k) b (row_number result) }
{
    match b {
        0 | 2..=4 | 6..=11 => Some(Family::Sor),
        _ => None,
    }
}

// Quadrant 3 with A 12 to 15 (said of A 12 in byte mode): one operand.
fn one_operand_3(b: u8) -> Option<Family>
    ensures { Along eqb 12 (λ k. slot_of 0 3 12 k) b (row_number result) }
{
    match b {
        4 | 6..=10 => Some(Family::Sonr),
        _ => None,
    }
}

// Quadrant 3 with A 8 to 11 and B 10, in byte mode: the instructions that have only the byte mark.
fn byte_marked_3(a: u8) -> Family
    requires { (8 ≤ a) × (a < 12) }
    ensures { Along eqb 12 (λ k. slot_of 0 3 k 10) a (number_of result) }
{
    match a {
        8 => Family::Noop,
        9 => Family::Test,
        10 => Family::Rstst,
        _ => Family::Setst,
    }
}

// Field C of SONR and TONR.
fn is_destination(c: u8) -> bool
    ensures { Along same 32 (has destinations) c result }
{
    matches!(c, 0..=1 | 4..=5)
}

// Field C of SHFTNR, PRTNR and SVSTNR.
fn is_y_or_acc(c: u8) -> bool
    ensures { Along same 32 (has y_or_acc) c result }
{
    c < 2
}

// Field C of SETST and RSTST.
fn is_flag(c: u8) -> bool
    ensures { Along same 32 (has flags) c result }
{
    matches!(c, 3 | 5..=6 | 9..=10)
}

// Field C of TEST: twice a code from 0 to 11.
fn is_twice_code(c: u8) -> bool
    ensures { Along same 32 (has twice_codes) c result }
{
    c <= 22 && c % 2 == 0
}

// Field C in the slot of BONR and ROTNR.
fn bit_or_turn(c: u8) -> Option<Family>
    ensures { Along eqb 32 (λ k. with_c (sharing (number_of Bonr)) k) c (row_number result) }
{
    match c {
        0..=2 | 4..=7 | 16..=18 | 20..=23 => Some(Family::Bonr),
        24..=25 | 28..=29 => Some(Family::Rotnr),
        _ => None,
    }
}

// The row of a slot that has field C.
fn with_c(slot: Family, c: u8) -> Option<Family>
    requires { c < 32 }
    ensures { row_number result ≡ with_c (sharing (number_of slot)) c }
{
    match slot {
        Family::Sonr | Family::Tonr => is_destination(c).then_some(slot),
        Family::Shftnr | Family::Prtnr | Family::Svstnr => is_y_or_acc(c).then_some(slot),
        Family::Bonr | Family::Rotnr => bit_or_turn(c),
        Family::Setst | Family::Rstst => is_flag(c).then_some(slot),
        Family::Test => is_twice_code(c).then_some(slot),
        Family::Noop => (c == 0).then_some(slot),
        _ => Some(slot),
    }
}

impl Fields {
    // Quadrant 0.
    fn quadrant_0(&self) -> Option<Family>
        ensures { row_number result ≡ slot_of self.now.mark 0 self.now.a self.now.b }
    {
        match self.b {
            0..=11 => two_operand_0(self.a),
            13 => None,
            _ => Some(Family::Rotr1),
        }
    }

    // Quadrant 2 with B up to 11.
    fn operations_2(&self) -> Option<Family>
        requires { self.now.b < 12 }
        ensures { row_number result ≡ slot_of self.now.mark 2 self.now.a self.now.b }
    {
        match self.a {
            1..=2 | 5 => Some(Family::Tor2),
            6 => if self.mark == 0 {
                is_shift(self.b).then_some(Family::Shftr)
            } else {
                shift_or_check_2(self.b)
            },
            7 => shift_or_save(self.b, Family::Shftr, Family::Svstr),
            8 | 10..=11 => prioritize_2(self.b),
            12..=15 => one_operand_2(self.b),
            _ => None,
        }
    }

    // Quadrant 2: with B 12 to 15 A is n.
    fn quadrant_2(&self) -> Option<Family>
        ensures { row_number result ≡ slot_of self.now.mark 2 self.now.a self.now.b }
    {
        match self.b {
            0..=11 => self.operations_2(),
            _ => Some(Family::Bor2),
        }
    }

    // Quadrant 3 with A 8 to 11.
    fn status_or_prioritize_3(&self) -> Option<Family>
        requires { (8 ≤ self.now.a) × (self.now.a < 12) × (self.now.b < 12) }
        ensures { row_number result ≡ slot_of self.now.mark 3 self.now.a self.now.b }
    {
        match self.b {
            4 | 6 => (self.a != 9).then_some(Family::Prtnr),
            10 => (self.mark == 0).then_some(byte_marked_3(self.a)),
            _ => None,
        }
    }

    // Quadrant 3 with B up to 11.
    fn operations_3(&self) -> Option<Family>
        requires { self.now.b < 12 }
        ensures { row_number result ≡ slot_of self.now.mark 3 self.now.a self.now.b }
    {
        match self.a {
            1..=2 | 5 => Some(Family::Tonr),
            6 => is_shift(self.b).then_some(Family::Shftnr),
            7 => shift_or_save(self.b, Family::Shftnr, Family::Svstnr),
            8..=11 => self.status_or_prioritize_3(),
            12..=15 => one_operand_3(self.b),
            _ => None,
        }
    }

    // Quadrant 3: with B 12 to 15 A is n, and B 12 is BONR's slot and ROTNR's.
    fn quadrant_3(&self) -> Option<Family>
        ensures { row_number result ≡ slot_of self.now.mark 3 self.now.a self.now.b }
    {
        match self.b {
            0..=11 => self.operations_3(),
            12 => Some(Family::Bonr),
            _ => Some(Family::Bor1),
        }
    }

    // The row that a word's fields belong to. In quadrants 0 to 2 field C is a RAM address, and every value is listed.
    pub(crate) fn family(&self) -> Option<Family>
        ensures { RowIs self.now result }
    {
        match self.quadrant {
            0 => self.quadrant_0(),
            1 => quadrant_1(self.b),
            2 => self.quadrant_2(),
            _ => with_c(self.quadrant_3()?, self.c),
        }
    }
}
