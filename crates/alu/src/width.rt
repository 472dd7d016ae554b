// Words and their parts at a width.
ghost use Rattle.std.specs.Prelude.{◌≡◌, ◌-◌, ◌≤◌};
ghost use Rattle.alu.specs.Width.{width_of, bit, low, complement};
ghost use Rattle.alu.specs.Bounds.{IsWidth, IsPower};

use crate::Mode;

// 2 to the n.
pub(crate) fn power_of_two(n: u8) -> u32
    requires { n ≤ 16 }
    ensures { IsPower n result }
{
    1u32 << n
}

impl Mode {
    // How many bits the width has.
    pub(crate) fn width(self) -> u8
        ensures { IsWidth self result }
    {
        match self {
            Mode::Byte => 8,
            Mode::Word => 16,
        }
    }

    // How many values the width has.
    pub(crate) fn size(self) -> u32
        ensures { IsPower (width_of self) result }
    {
        power_of_two(self.width())
    }

    // The weight of the top bit.
    pub(crate) fn half(self) -> u32
        ensures { IsPower (width_of self - 1) result }
    {
        power_of_two(self.width() - 1)
    }

    // The part of x below the width.
    pub(crate) fn low(self, x: u32) -> u16
        ensures { result ≡ low (width_of self) x }
    {
        (x % self.size()) as u16
    }

    // Every bit below the width turned over.
    #[tactic(auto, unfolding(crate::specs::Width::complement))]
    pub(crate) fn complement(self, x: u16) -> u16
        ensures { result ≡ complement (width_of self) x }
    {
        (self.size() - 1 - self.low(x as u32) as u32) as u16
    }

    // The top bit of the width.
    pub(crate) fn top_bit(self, x: u32) -> u8
        ensures { result ≡ bit (width_of self - 1) x }
    {
        (x / self.half() % 2) as u8
    }
}
