// Rotates, and what is done with a rotated word under a mask.
ghost use Rattle.std.specs.Prelude.{◌≡◌};
ghost use Rattle.alu.specs.Width.{width_of, low};
ghost use Rattle.alu.specs.Operations.{rotated, outcome_of};
ghost use Rattle.alu.specs.declared.Operation.TheVariants.{Rotate, Merge, Compare};

use crate::flags::Setting;
use crate::{Mode, Outcome};

impl Mode {
    // n places up, modulo the width: what leaves at the top comes in below. A byte stands in both halves of a word, so that the word's rotate is
    // its own, without a jump.
    #[tactic(auto, unfolding(crate::specs::Operations::rotated))]
    fn rotated(self, n: u8, source: u16) -> u16
        ensures { result ≡ rotated (width_of self) n (low (width_of self) source) }
    {
        let source = self.low(source as u32);
        let word = match self {
            Mode::Byte => source * 257,
            Mode::Word => source,
        };
        self.low(word.rotate_left(n as u32) as u32)
    }
}

impl Setting {
    #[tactic(auto, unfolding(crate::specs::Operations::outcome_of, crate::specs::Operations::rotate))]
    pub(crate) fn rotate(self, n: u8, source: u16) -> Outcome
        ensures { result ≡ outcome_of (width_of self.mode) (Rotate n source) self.status }
    {
        self.plain(self.mode.rotated(n, source))
    }

    // Rotated u where the mask is 1, else r.
    #[tactic(auto, unfolding(crate::specs::Operations::outcome_of, crate::specs::Operations::merge))]
    pub(crate) fn merge(self, n: u8, u: u16, r: u16, mask: u16) -> Outcome
        ensures { result ≡ outcome_of (width_of self.mode) (Merge n u r mask) self.status }
    {
        let mode = self.mode;
        let r = mode.low(r as u32);
        let mask = mode.low(mask as u32);
        let taken = mode.rotated(n, u) & mask;
        self.plain(taken | r & mode.complement(mask))
    }

    // Where r and rotated u differ and the mask is 0.
    #[tactic(auto, unfolding(crate::specs::Operations::outcome_of, crate::specs::Operations::compare))]
    pub(crate) fn compare(self, n: u8, u: u16, r: u16, mask: u16) -> Outcome
        ensures { result ≡ outcome_of (width_of self.mode) (Compare n u r mask) self.status }
    {
        let mode = self.mode;
        let r = mode.low(r as u32);
        let mask = mode.low(mask as u32);
        let differ = r ^ mode.rotated(n, u);
        self.plain(differ & mode.complement(mask))
    }
}
