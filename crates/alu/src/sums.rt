// Sums and differences at a width, with their carries.
ghost use Rattle.std.specs.Prelude.{◌≡◌, ◌+◌, ◌/◌, ◌%◌, ◌≤◌};
ghost use Rattle.alu.specs.Width.{width_of};
ghost use Rattle.alu.specs.Operations.{plus, minus};

use crate::Outcome;
use crate::flags::{Flags, Setting};

// The carry into the place of this weight, from the parts below it.
fn carry_into(weight: u32, a: u16, b: u16, k: u8) -> u8
    requires { 1 ≤ weight }
    ensures { result ≡ (a % weight + b % weight + k) / weight % 2 }
{
    ((a as u32 % weight + b as u32 % weight + k as u32) / weight % 2) as u8
}

impl Setting {
    // a + b + k.
    #[tactic(auto, unfolding(crate::specs::Operations::plus))]
    pub(crate) fn plus(self, a: u16, b: u16, k: u8) -> Outcome
        ensures { result ≡ plus (width_of self.mode) a b k self.status }
    {
        let mode = self.mode;
        let sum = a as u32 + b as u32 + k as u32;
        let c = carry_into(mode.size(), a, b, k);
        let before = carry_into(mode.half(), a, b, k);
        let flags = Flags {
            z: mode.zero_flag(sum),
            c,
            n: mode.top_bit(sum),
            ovr: c ^ before,
        };
        Outcome {
            result: mode.low(sum),
            status: flags.over(self.status),
        }
    }

    // a and the complement of b and k.
    #[tactic(auto, unfolding(crate::specs::Operations::minus))]
    pub(crate) fn minus(self, a: u16, b: u16, k: u8) -> Outcome
        ensures { result ≡ minus (width_of self.mode) a b k self.status }
    {
        self.plus(a, self.mode.complement(b), k)
    }
}
