// What an instruction sees, and the operands it takes from that.
ghost use Rattle.std.specs.Prelude.{◌≡◌, ◌<◌};
ghost use Rattle.alu.specs.Width.{width_of, low};
ghost use Rattle.machine.specs.Stepping.{seen_of, sources_of, place_of};

use crate::{Core, View};
use alu::Mode;
use plan::Source;

// The part of a word at the width. alu has the same, within an operation.
fn at_width(mode: Mode, x: u16) -> u16
    ensures { result ≡ low (width_of mode) x }
{
    match mode {
        Mode::Byte => x % 256,
        Mode::Word => x,
    }
}

// What an instruction sees; word is its register's.
pub(crate) fn seen(mode: Mode, word: u16, core: Core, immediate: u16) -> View
    ensures { result ≡ seen_of mode word core immediate }
{
    View {
        ram: at_width(mode, word),
        acc: at_width(mode, core.acc),
        latch: at_width(mode, core.latch),
        immediate: at_width(mode, immediate),
        status: core.status,
    }
}

// Every word that an operand can be, in the order of the sources. An operand is read by its place here, because a processor cannot guess jumps
// over the sources (docs/DECISIONS.md, 52).
pub(crate) fn sources(view: View) -> [u16; 7]
    ensures { result ≡ sources_of view }
{
    [
        0,
        view.ram,
        view.acc,
        view.latch,
        view.immediate,
        view.latch % 256,
        view.latch % 256 + view.latch % 256 / 128 * 0xFF00,
    ]
}

// The place of a source among them.
pub(crate) fn place(source: Source) -> usize
    ensures { (result ≡ place_of source) × (result < 7) }
{
    match source {
        Source::Zero => 0,
        Source::Ram => 1,
        Source::Acc => 2,
        Source::Latch => 3,
        Source::Immediate => 4,
        Source::LatchZeroExtended => 5,
        Source::LatchSignExtended => 6,
    }
}
