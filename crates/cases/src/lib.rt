// The machine that the cases of cycle_cases and run_cases begin with, and what they print of one; for tests.
#![tactic(auto)]

ghost use Rattle.std.specs.Prelude.{◌≡◌, ◌%◌};
ghost use Rattle.streams.specs.Digits.{hex_from};
ghost use Rattle.cases.specs.Start.{waits_for};

use machine::{Machine, Registers, Waiting};
use std::io;
use streams::hex;

// RAM at the start of every case.
pub const RAM: [u16; 32] = [
    0x0000, 0x0001, 0x00FF, 0x0100, 0x137F, 0x3156, 0x1280, 0x7FFF, 0x8000, 0xAAAA, 0x15F0, 0xFF00,
    0xFFFF, 0x0080, 0x1021, 0x8408, 0x00C3, 0x10C3, 0x20C3, 0x30C3, 0x40C3, 0x50C3, 0x60C3, 0x70C3,
    0x80C3, 0x90C3, 0xA0C3, 0xB0C3, 0xC0C3, 0xD0C3, 0xE0C3, 0xF0C3,
];

// The word of hexadecimal digits, the last four of them.
pub fn word(digits: &[u8]) -> u16
    ensures { result ≡ hex_from 0 digits.now % 65536 }
{
    (hex(digits) % 65536) as u16
}

// The machine that a case begins with: its waiting word (0 for none), ACC, D and the status.
pub fn start(waiting: u16, acc: u16, latch: u16, status: u16) -> Machine
    ensures ram { result.registers.ram ≡ RAM }
    ensures acc { result.registers.acc ≡ acc }
    ensures latch { result.registers.latch ≡ latch }
    ensures status { result.registers.status ≡ status % 256 }
    ensures waiting { result.registers.waiting ≡ waits_for waiting }
{
    Machine {
        registers: Registers {
            ram: RAM,
            acc,
            latch,
            status: (status % 256) as u8,
            waiting: if waiting == 0 {
                Waiting::Nothing
            } else {
                Waiting::Held(waiting)
            },
        },
    }
}

// The registers but RAM.
pub fn print_core(rt: &impl Print, registers: Registers) -> io::Result<()> {
    let Registers {
        acc,
        latch,
        status,
        waiting,
        ..
    } = registers;
    print!(rt; "acc {acc:04X} d {latch:04X} st {status:02X} wait ")?;
    match waiting {
        Waiting::Nothing => print!(rt; "-"),
        Waiting::Held(word) => print!(rt; "{word:04X}"),
    }
}

// Each register of RAM that is not what it was at the start, with a text before it and one after it.
pub fn print_changed(
    rt: &impl Print,
    ram: &[u16; 32],
    before: &str,
    after: &str,
) -> io::Result<()> {
    for (at, (word, first)) in ram.iter().zip(RAM.iter()).enumerate() {
        if word != first {
            print!(rt; "{before}r{at:02} {word:04X}{after}")?;
        }
    }
    Ok(())
}
