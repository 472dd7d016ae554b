// Moves by one place, where a bit leaves into LINK: the shifts, and the two steps of a cyclic check.
ghost use Rattle.std.specs.Prelude.{◌≡◌, ◌-◌, ◌%◌, ◌≤◌};
ghost use Rattle.alu.specs.Width.{width_of, bit};
ghost use Rattle.alu.specs.Operations.{gated, moved_up, moved_down, crc_step, outcome_of};
ghost use Rattle.alu.specs.declared.Operation.TheVariants.{Shift, CrcForward, CrcReverse};

use crate::flags::{C, LINK, N, OVR, Setting};
use crate::{Mode, Outcome, ShiftKind};

// A word after its move, and the bit that left it.
#[derive(Clone, Copy)]
struct Moved {
    word: u16,
    out: u8,
}

// x where the bit f is 1, else 0.
fn gated(f: u8, x: u32) -> u32
    ensures { (result ≡ gated f x) × (result ≤ x) }
{
    if f == 0 { 0 } else { x }
}

impl Mode {
    // One place up, with a bit coming in below.
    #[tactic(auto, unfolding(crate::specs::Operations::moved_up))]
    fn up(self, source: u16, coming: u8) -> Moved
        ensures word { result.word ≡ moved_up (width_of self) source coming }
        ensures out { result.out ≡ bit (width_of self - 1) source }
    {
        Moved {
            word: self.low(source as u32 * 2 + coming as u32),
            out: self.top_bit(source as u32),
        }
    }

    // One place down, with a bit coming in on top.
    #[tactic(auto, unfolding(crate::specs::Operations::moved_down))]
    fn down(self, source: u16, coming: u8) -> Moved
        ensures word { result.word ≡ moved_down (width_of self) source coming }
        ensures out { result.out ≡ source % 2 }
    {
        Moved {
            word: ((gated(coming, self.size()) + source as u32) / 2) as u16,
            out: (source % 2) as u8,
        }
    }
}

impl Setting {
    #[tactic(auto, unfolding(crate::specs::Operations::outcome_of, crate::specs::Operations::shift, crate::specs::Operations::shift_up, crate::specs::Operations::shift_down))]
    pub(crate) fn shift(self, kind: ShiftKind, source: u16) -> Outcome
        ensures { result ≡ outcome_of (width_of self.mode) (Shift kind source) self.status }
    {
        let mode = self.mode;
        let source = mode.low(source as u32);
        let moved = match kind {
            ShiftKind::UpWithZero => mode.up(source, 0),
            ShiftKind::UpWithOne => mode.up(source, 1),
            ShiftKind::UpWithLink => mode.up(source, self.stored(LINK)),
            ShiftKind::DownWithZero => mode.down(source, 0),
            ShiftKind::DownWithOne => mode.down(source, 1),
            ShiftKind::DownWithLink => mode.down(source, self.stored(LINK)),
            ShiftKind::DownWithC => mode.down(source, self.stored(C)),
            ShiftKind::DownWithNXorOvr => mode.down(source, self.stored(N) ^ self.stored(OVR)),
        };
        self.plain(moved.word).linked(moved.out)
    }

    // A step of a check on the register already moved: ACC over it where LINK and the bit that left differ.
    #[tactic(auto, unfolding(crate::specs::Operations::crc_step))]
    fn crc_step(self, moved: Moved, acc: u16) -> Outcome
        ensures { result ≡ crc_step (width_of self.mode) moved.word moved.out acc self.status }
    {
        let over = gated(self.stored(LINK) ^ moved.out, acc as u32) as u16;
        self.plain(moved.word ^ over).linked(moved.out)
    }

    #[tactic(auto, unfolding(crate::specs::Operations::outcome_of, crate::specs::Operations::crc_forward))]
    pub(crate) fn crc_forward(self, register: u16, acc: u16) -> Outcome
        ensures { result ≡ outcome_of (width_of self.mode) (CrcForward register acc) self.status }
    {
        let mode = self.mode;
        let register = mode.low(register as u32);
        self.crc_step(mode.up(register, 0), mode.low(acc as u32))
    }

    #[tactic(auto, unfolding(crate::specs::Operations::outcome_of, crate::specs::Operations::crc_reverse))]
    pub(crate) fn crc_reverse(self, register: u16, acc: u16) -> Outcome
        ensures { result ≡ outcome_of (width_of self.mode) (CrcReverse register acc) self.status }
    {
        let mode = self.mode;
        let register = mode.low(register as u32);
        self.crc_step(mode.down(register, 0), mode.low(acc as u32))
    }
}
