// The status byte, before an operation and after it. A bit of it is the number 0 or 1, as sums and shifts take it in.
ghost use Rattle.std.specs.Prelude.{◌≡◌, ◌<◌};
ghost use Rattle.alu.specs.Width.{width_of, bit};
ghost use Rattle.alu.specs.Flags.{zero_flag, flagged, with_sign, plain, linked};

use crate::{Mode, Outcome};

// The places of the status bits that operations take in.
pub(crate) const C: u8 = 1;

pub(crate) const N: u8 = 2;

pub(crate) const OVR: u8 = 3;

pub(crate) const LINK: u8 = 4;

// What an operation finds: the width that it works at, and the status before it.
#[derive(Clone, Copy)]
pub(crate) struct Setting {
    pub(crate) mode: Mode,
    pub(crate) status: u8,
}

// The four flags that each operation sets.
#[derive(Clone, Copy)]
pub(crate) struct Flags {
    pub(crate) z: u8,
    pub(crate) c: u8,
    pub(crate) n: u8,
    pub(crate) ovr: u8,
}

impl Flags {
    // The status with these flags in the place of its own.
    #[tactic(auto, unfolding(crate::specs::Flags::flagged))]
    pub(crate) fn over(self, status: u8) -> u8
        ensures { result ≡ flagged self.z self.c self.n self.ovr status }
    {
        status / 16 * 16 + (self.z % 2 + self.c % 2 * 2 + self.n % 2 * 4 + self.ovr % 2 * 8)
    }
}

impl Mode {
    // Z: 1 where x is 0 at the width.
    pub(crate) fn zero_flag(self, x: u32) -> u8
        ensures { result ≡ zero_flag (width_of self) x }
    {
        u8::from(self.low(x) == 0)
    }
}

impl Setting {
    // The old status's bit at a place.
    pub(crate) fn stored(self, place: u8) -> u8
        requires { place < 8 }
        ensures { result ≡ bit place self.status }
    {
        (self.status >> place) % 2
    }

    // A result with a given N; C and OVR become 0.
    #[tactic(auto, unfolding(crate::specs::Flags::with_sign))]
    pub(crate) fn with_sign(self, n: u8, res: u16) -> Outcome
        ensures { result ≡ with_sign (width_of self.mode) n res self.status }
    {
        let flags = Flags {
            z: self.mode.zero_flag(res as u32),
            c: 0,
            n,
            ovr: 0,
        };
        Outcome {
            result: res,
            status: flags.over(self.status),
        }
    }

    // A result with N its top bit; C and OVR become 0.
    #[tactic(auto, unfolding(crate::specs::Flags::plain))]
    pub(crate) fn plain(self, res: u16) -> Outcome
        ensures { result ≡ plain (width_of self.mode) res self.status }
    {
        self.with_sign(self.mode.top_bit(res as u32), res)
    }
}

impl Outcome {
    // The same outcome with LINK the bit shifted out.
    #[tactic(auto, unfolding(crate::specs::Flags::linked))]
    pub(crate) fn linked(self, out: u8) -> Outcome
        ensures { result ≡ linked out self }
    {
        Outcome {
            status: self.status / 32 * 32 + out % 2 * 16 + self.status % 16,
            ..self
        }
    }
}
