// CT and T.
ghost use Rattle.std.specs.Prelude.{◌≡◌};
ghost use Rattle.machine.specs.Reporting.{condition_of, ct_by_pins, ct_of, t_of};

use crate::pins;
use plan::Chooser;

// CT by its code: 0 or 1, or 2 for none, as a report has it.
fn condition(code: u8, status: u8) -> u8
    ensures { result ≡ condition_of code status }
{
    let z = status % 2;
    let c = status / 2 % 2;
    let n = status / 4 % 2;
    let ovr = status / 8 % 2;
    let less = n ^ ovr;
    let all: [u8; 16] = [
        less | z,
        less,
        z,
        ovr,
        0,
        c,
        z | (1 - c),
        n,
        status / 16 % 2,
        status / 32 % 2,
        status / 64 % 2,
        status / 128 % 2,
        2,
        2,
        2,
        2,
    ];
    all[(code % 16) as usize]
}

fn ct_by_pins(status: u8, levels: u16) -> u8
    ensures { result ≡ ct_by_pins status levels }
{
    if pins::oe_t_high(levels) {
        2
    } else {
        condition(pins::t_inputs(levels), status)
    }
}

// CT, by the status before the cycle.
pub(crate) fn ct(chooser: Chooser, status: u8, levels: u16) -> u8
    ensures { result ≡ ct_of chooser status levels }
{
    match chooser {
        Chooser::Instruction(code) if !pins::ien_high(levels) => condition(code, status),
        _ => ct_by_pins(status, levels),
    }
}

// T, by the status after the cycle.
pub(crate) fn t(status: u8, levels: u16) -> u8
    ensures { result ≡ t_of status levels }
{
    if pins::oe_t_high(levels) {
        status % 16
    } else {
        16
    }
}
