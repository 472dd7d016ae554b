// The operations on two operands, on one, and on a bit.
ghost use Rattle.std.specs.Prelude.{◌≡◌};
ghost use Rattle.alu.specs.Width.{width_of};
ghost use Rattle.alu.specs.Operations.{power, outcome_of};
ghost use Rattle.alu.specs.declared.Operation.TheVariants.{TwoOperand, OneOperand, Bit};

use crate::flags::{C, Setting};
use crate::width::power_of_two;
use crate::{BitKind, Mode, OneOperandKind, Outcome, TwoOperandKind};

impl Mode {
    // 2^n, n modulo the width.
    fn power(self, n: u8) -> u16
        ensures { result ≡ power (width_of self) n }
    {
        power_of_two(n % self.width()) as u16
    }
}

impl Setting {
    #[tactic(auto, unfolding(crate::specs::Operations::outcome_of, crate::specs::Operations::two_operand, crate::specs::Operations::xnor_sign))]
    pub(crate) fn two_operand(self, kind: TwoOperandKind, r: u16, s: u16) -> Outcome
        ensures { result ≡ outcome_of (width_of self.mode) (TwoOperand kind r s) self.status }
    {
        let mode = self.mode;
        let r = mode.low(r as u32);
        let s = mode.low(s as u32);
        let c = self.stored(C);
        match kind {
            TwoOperandKind::SMinusR => self.minus(s, r, 1),
            TwoOperandKind::SMinusRWithCarry => self.minus(s, r, c),
            TwoOperandKind::RMinusS => self.minus(r, s, 1),
            TwoOperandKind::RMinusSWithCarry => self.minus(r, s, c),
            TwoOperandKind::RPlusS => self.plus(r, s, 0),
            TwoOperandKind::RPlusSWithCarry => self.plus(r, s, c),
            TwoOperandKind::And => self.plain(r & s),
            TwoOperandKind::Nand => self.plain(mode.complement(r & s)),
            TwoOperandKind::Xor => self.plain(r ^ s),
            TwoOperandKind::Nor => self.plain(mode.complement(r | s)),
            TwoOperandKind::Or => self.plain(r | s),
            TwoOperandKind::Xnor => self.with_sign(0, mode.complement(r ^ s)),
        }
    }

    #[tactic(auto, unfolding(crate::specs::Operations::outcome_of, crate::specs::Operations::one_operand))]
    pub(crate) fn one_operand(self, kind: OneOperandKind, source: u16) -> Outcome
        ensures { result ≡ outcome_of (width_of self.mode) (OneOperand kind source) self.status }
    {
        let source = self.mode.low(source as u32);
        match kind {
            OneOperandKind::Move => self.plain(source),
            OneOperandKind::Complement => self.plain(self.mode.complement(source)),
            OneOperandKind::Increment => self.plus(source, 0, 1),
            OneOperandKind::Negate => self.minus(0, source, 1),
        }
    }

    #[tactic(auto, unfolding(crate::specs::Operations::outcome_of, crate::specs::Operations::bit_operation))]
    pub(crate) fn bit_operation(self, kind: BitKind, n: u8, source: u16) -> Outcome
        ensures { result ≡ outcome_of (width_of self.mode) (Bit kind n source) self.status }
    {
        let mode = self.mode;
        let source = mode.low(source as u32);
        let bit = mode.power(n);
        match kind {
            BitKind::SetBit => self.plain(source | bit),
            BitKind::ResetBit => self.plain(source & mode.complement(bit)),
            BitKind::TestBit => self.plain(source & bit),
            BitKind::LoadBit => self.plain(bit),
            BitKind::LoadBitComplement => self.plain(mode.complement(bit)),
            BitKind::AddBit => self.plus(source, bit, 0),
            BitKind::SubtractBit => self.minus(source, bit, 1),
        }
    }
}
