// What a named instruction asks for: the operation, where its operands come from, where its result goes, what the bus shows, and
// who chooses CT. It is document 01's instruction list, read for its meaning.
#![tactic(auto)]

use alu::{BitKind, Mode, OneOperandKind, ShiftKind, TwoOperandKind};
use isa::{Family, Named};

mod tables; // tables.rt: what single fields stand for

ghost use Rattle.std.specs.Prelude.{◌≡◌};
ghost use Rattle.plan.specs.Tables.{at, two_operands, one_operands, shifts, sources, rotate_u, rotate_r, rotate_mask, back};
ghost use Rattle.plan.specs.Plans.{one, two, masked, three, at_width, whole, idle, bit_work, work_of, plan_of};
ghost use Rattle.plan.specs.Reading.{is_immediate, names_i};

// What is done. Set and reset status name the status bits that they change.
#[derive(Clone, Copy, Debug, PartialEq, Eq)]
pub enum Task {
    NoOperation,
    TwoOperand(TwoOperandKind),
    OneOperand(OneOperandKind),
    Bit(BitKind),
    Shift(ShiftKind),
    Rotate,
    Merge,
    Compare,
    Prioritize,
    CrcForward,
    CrcReverse,
    SaveStatus,
    SetStatus(u8),
    ResetStatus(u8),
    TestStatus,
}

// Where an operand comes from. LatchZeroExtended is document 01's D(0E), LatchSignExtended its D(SE).
#[derive(Clone, Copy, Debug, PartialEq, Eq)]
pub enum Source {
    Zero,
    Ram,
    Acc,
    Latch,
    Immediate,
    LatchZeroExtended,
    LatchSignExtended,
}

// Where the result goes besides the Y bus.
#[derive(Clone, Copy, Debug, PartialEq, Eq)]
pub enum Destination {
    ToY,
    ToAcc,
    ToRam,
    ToStatus,
    ToAccAndStatus,
}

// How much of Y the bus shows.
#[derive(Clone, Copy, Debug, PartialEq, Eq)]
pub enum Shown {
    AtWidth,
    Whole,
    Nothing,
}

// Who chooses CT with IEN low: the T inputs, or the instruction by a code, as document 01 numbers them. No Option, because somebody always chooses.
#[derive(Clone, Copy, Debug, PartialEq, Eq)]
pub enum Chooser {
    Pins,
    Instruction(u8),
}

// A source; R and S; a register and ACC; U, R and the mask; or a source and its mask. A place that a task does not have is Zero, as the plans of the
// definition have it.
#[derive(Clone, Copy, Debug, PartialEq, Eq)]
pub struct Operands {
    pub first: Source,
    pub second: Source,
    pub mask: Source,
}

// What is to be done with which operands, where the result goes, what the bus shows and who chooses CT.
#[derive(Clone, Copy, Debug, PartialEq, Eq)]
pub struct Work {
    pub task: Task,
    pub operands: Operands,
    pub destination: Destination,
    pub shown: Shown,
    pub chooser: Chooser,
}

// What a named instruction asks for: its work at a mode, with n and the RAM address, which not every task uses.
#[derive(Clone, Copy, Debug, PartialEq, Eq)]
pub struct Plan {
    pub mode: Mode,
    pub n: u8,
    pub register: u8,
    pub work: Work,
}

fn one(source: Source) -> Operands
    ensures { result ≡ one source }
{
    two(source, Source::Zero)
}

fn two(first: Source, second: Source) -> Operands
    ensures { result ≡ two first second }
{
    Operands {
        first,
        second,
        mask: Source::Zero,
    }
}

// Work whose Y is known at the width.
fn at_width(task: Task, operands: Operands, destination: Destination) -> Work
    ensures { result ≡ at_width task operands destination }
{
    Work {
        task,
        operands,
        destination,
        shown: Shown::AtWidth,
        chooser: Chooser::Pins,
    }
}

// Work whose Y is known whole.
fn whole(task: Task, operands: Operands, destination: Destination) -> Work
    ensures { result ≡ whole task operands destination }
{
    Work {
        shown: Shown::Whole,
        ..at_width(task, operands, destination)
    }
}

fn rotate(source: Source, destination: Destination) -> Work
    ensures { result ≡ at_width Task.Rotate (one source) destination }
{
    at_width(Task::Rotate, one(source), destination)
}

fn check_step(task: Task) -> Work
    ensures { result ≡ at_width task (two Source.Ram Source.Acc) Destination.ToRam }
{
    at_width(task, two(Source::Ram, Source::Acc), Destination::ToRam)
}

// A merge goes where its R is.
fn merge(b: u8) -> Work
    ensures { result ≡ at_width Task.Merge (three (at rotate_u b) (at rotate_r b) (at rotate_mask b)) (back (at rotate_r b)) }
{
    let operands = tables::rotate_operands(b);
    at_width(Task::Merge, operands, tables::back_to(operands.second))
}

// Work that shows nothing.
fn idle(task: Task, chooser: Chooser) -> Work
    ensures { result ≡ idle task chooser }
{
    Work {
        task,
        operands: one(Source::Zero),
        destination: Destination::ToY,
        shown: Shown::Nothing,
        chooser,
    }
}

fn two_operand(b: u8, operands: Operands, destination: Destination) -> Work
    ensures { result ≡ at_width (Task.TwoOperand (at two_operands b)) operands destination }
{
    at_width(
        Task::TwoOperand(tables::two_operand_kind(b)),
        operands,
        destination,
    )
}

fn one_operand(a: u8, b: u8, destination: Destination) -> Work
    ensures { result ≡ at_width (Task.OneOperand (at one_operands a)) (one (at sources b)) destination }
{
    at_width(
        Task::OneOperand(tables::one_operand_kind(a)),
        one(tables::source_at(b)),
        destination,
    )
}

fn shift(b: u8, source: Source, destination: Destination) -> Work
    ensures { result ≡ at_width (Task.Shift (at shifts b)) (one source) destination }
{
    at_width(Task::Shift(tables::shift_kind(b)), one(source), destination)
}

fn bit(kind: BitKind, source: Source) -> Work
    ensures { result ≡ bit_work kind source }
{
    at_width(Task::Bit(kind), one(source), tables::bit_to(kind, source))
}

fn prioritize(source: Source, mask: Source, destination: Destination) -> Work
    ensures { result ≡ whole Task.Prioritize (masked source mask) destination }
{
    let operands = Operands {
        mask,
        ..one(source)
    };
    whole(Task::Prioritize, operands, destination)
}

fn status_work(task: Task, destination: Destination) -> Work
    ensures { result ≡ whole task (one Source.Zero) destination }
{
    whole(task, one(Source::Zero), destination)
}

// The work of a family, by its fields.
#[tactic(auto, unfolding(crate::specs::Plans::work_of))]
fn work_of(family: Family, a: u8, b: u8, c: u8) -> Work
    ensures { result ≡ work_of family a b c }
{
    match family {
        Family::Tor1 => two_operand(b, tables::ram_pair(a), tables::ram_pair_to(a)),
        Family::Rotr1 => rotate(Source::Ram, tables::rotr1_to(b)),
        Family::Rotr2 => rotate(tables::rotate_u(b), Destination::ToRam),
        Family::Rotc => at_width(Task::Compare, tables::rotate_operands(b), Destination::ToY),
        Family::Rotm => merge(b),
        Family::Sor => one_operand(a, b, tables::sor_to(b)),
        Family::Bor2 => bit(tables::bor2_kind(b), Source::Ram),
        Family::Tor2 => two_operand(b, tables::pair(a), Destination::ToRam),
        Family::Shftr => shift(b, tables::shift_source(Source::Ram, a), Destination::ToRam),
        Family::Crcf => check_step(Task::CrcForward),
        Family::Crcr => check_step(Task::CrcReverse),
        Family::Prt1 => prioritize(tables::prt1_source(b), Source::Ram, tables::prt1_to(a)),
        Family::Prt2 => prioritize(Source::Ram, tables::mask_source(a), tables::prt2_to(b)),
        Family::Prt3 => prioritize(
            tables::source_at(b),
            tables::mask_source(a),
            Destination::ToRam,
        ),
        Family::Svstr => status_work(Task::SaveStatus, Destination::ToRam),
        Family::Sonr => one_operand(a, b, tables::no_ram_to(c)),
        Family::Tonr => two_operand(b, tables::pair(a), tables::no_ram_to(c)),
        Family::Shftnr => shift(
            b,
            tables::shift_source(Source::Acc, a),
            tables::no_ram_to(c),
        ),
        Family::Bor1 => bit(tables::bor1_kind(b), Source::Ram),
        Family::Bonr => bit(tables::bonr_kind(c), tables::bonr_source(c)),
        Family::Rotnr => rotate(tables::rotnr_source(c), tables::rotnr_to(c)),
        Family::Prtnr => prioritize(
            tables::source_at(b),
            tables::mask_source(a),
            tables::no_ram_to(c),
        ),
        Family::Svstnr => status_work(Task::SaveStatus, tables::no_ram_to(c)),
        Family::Setst => status_work(Task::SetStatus(tables::status_bits(c)), Destination::ToY),
        Family::Rstst => status_work(Task::ResetStatus(tables::status_bits(c)), Destination::ToY),
        Family::Test => idle(Task::TestStatus, Chooser::Instruction(c / 2)),
        Family::Noop => idle(Task::NoOperation, Chooser::Pins),
    }
}

// What a named instruction asks for.
#[tactic(auto, unfolding(crate::specs::Plans::plan_of))]
pub fn plan_for(named: Named) -> Plan
    ensures { result ≡ plan_of named }
{
    let a = named.a % 16;
    let c = named.c % 32;
    Plan {
        mode: named.mode,
        n: a,
        register: c,
        work: work_of(named.family, a, named.b % 16, c),
    }
}

fn is_immediate(source: Source) -> bool
    ensures { result ≡ is_immediate source }
{
    matches!(source, Source::Immediate)
}

// Whether some operand is I.
pub fn names_immediate(work: Work) -> bool
    ensures { result ≡ names_i work }
{
    let Operands {
        first,
        second,
        mask,
    } = work.operands;
    is_immediate(first) || is_immediate(second) || is_immediate(mask)
}
