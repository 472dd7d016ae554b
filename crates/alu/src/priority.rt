// The place of the highest bit that a mask leaves.
ghost use Rattle.std.specs.Prelude.{◌≡◌};
ghost use Rattle.alu.specs.Width.{width_of, low};
ghost use Rattle.alu.specs.Operations.{priority, outcome_of};
ghost use Rattle.alu.specs.declared.Operation.TheVariants.{Prioritize};

use crate::flags::Setting;
use crate::{Mode, Outcome};

impl Mode {
    // 0 for 0, else the place of the highest bit, 1 for the top of the width.
    #[tactic(auto, unfolding(crate::specs::Operations::priority))]
    fn priority(self, x: u16) -> u16
        ensures { result ≡ priority (width_of self) (low (width_of self) x) }
    {
        let x = self.low(x as u32);
        if x == 0 {
            0
        } else {
            (x.leading_zeros() + 1 + self.width() as u32 - 16) as u16
        }
    }
}

impl Setting {
    #[tactic(auto, unfolding(crate::specs::Operations::outcome_of, crate::specs::Operations::prioritize))]
    pub(crate) fn prioritize(self, source: u16, mask: u16) -> Outcome
        ensures { result ≡ outcome_of (width_of self.mode) (Prioritize source mask) self.status }
    {
        let mode = self.mode;
        let source = mode.low(source as u32);
        let mask = mode.low(mask as u32);
        self.plain(mode.priority(source & mode.complement(mask)))
    }
}
