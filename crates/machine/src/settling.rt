// The only writer of registers.
ghost use Rattle.std.specs.Prelude.{◌≡◌};
ghost use Rattle.machine.specs.Settling.{status_after};
ghost use Rattle.machine.specs.Stepping.{latched_core, waiting_core, to_ram, to_acc, settled_word, settled_ram, settled_core};

use crate::{Core, Effect, Waiting, pins};
use alu::Mode;
use plan::Destination;

// D takes the Y input where DLE is high.
pub(crate) fn latched(core: Core, input: u16, levels: u16) -> Core
    ensures { result ≡ latched_core core input levels }
{
    if pins::dle_high(levels) {
        Core {
            latch: input,
            ..core
        }
    } else {
        core
    }
}

// The word of a first immediate cycle is kept.
pub(crate) fn with_waiting(core: Core, waiting: Waiting) -> Core
    ensures { result ≡ waiting_core core waiting }
{
    Core { waiting, ..core }
}

fn to_ram(destination: Destination) -> bool
    ensures { result ≡ to_ram destination }
{
    matches!(destination, Destination::ToRam)
}

fn to_acc(destination: Destination) -> bool
    ensures { result ≡ to_acc destination }
{
    matches!(
        destination,
        Destination::ToAcc | Destination::ToAccAndStatus
    )
}

// A word of RAM, or ACC, after an instruction, by whether it is its destination. Mode, effect and levels stay apart here, as the definitions have them.
fn settled_word(mode: Mode, effect: Effect, written: bool, word: u16, levels: u16) -> u16
    ensures { result ≡ settled_word mode effect written word levels }
{
    if written && !pins::ien_high(levels) {
        alu::write_back(mode, word, effect.result)
    } else {
        word
    }
}

// RAM after an instruction; register is the one that is written. Its word is put back whatever the destination is, possibly as it was, so that
// no jump hangs on the destination.
pub(crate) fn settle_ram(ram: &mut [u16; 32], register: u8, mode: Mode, effect: Effect, levels: u16)
    ensures { ram.new ≡ settled_ram mode register ram.old effect levels }
{
    let at = (register % 32) as usize;
    ram[at] = settled_word(mode, effect, to_ram(effect.destination), ram[at], levels);
}

fn status_after(old: u8, new: u8, levels: u16) -> u8
    ensures { result ≡ status_after old new levels }
{
    if pins::both_low(levels) { new } else { old }
}

// The registers but RAM after an instruction.
pub(crate) fn settled_core(mode: Mode, core: Core, effect: Effect, levels: u16) -> Core
    ensures { result ≡ settled_core mode core effect levels }
{
    Core {
        acc: settled_word(mode, effect, to_acc(effect.destination), core.acc, levels),
        status: status_after(core.status, effect.status, levels),
        waiting: Waiting::Nothing,
        ..core
    }
}
