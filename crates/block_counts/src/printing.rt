// What a call answered and what it left in the lent output, as lines.
use refusals::Refused;
use std::io;

// The units that are shown of the beginning and of the end.
const SHOWN: usize = 8;

// What lent output is made of: words or bytes.
pub(crate) trait Unit: Copy + PartialEq + Into<u16> {
    // What stands in each before a call.
    const FILL: Self;

    // How many hexadecimal digits each has.
    const DIGITS: usize;
}

impl Unit for u16 {
    const FILL: u16 = 0xA5A5;

    const DIGITS: usize = 4;
}

impl Unit for u8 {
    const FILL: u8 = 0xA5;

    const DIGITS: usize = 2;
}

fn print_units<U: Unit>(rt: &impl Print, units: &[U]) -> io::Result<()> {
    let digits = U::DIGITS;
    for unit in units {
        let number: u16 = (*unit).into();
        print!(rt; " {number:0digits$X}")?;
    }
    println!(rt)
}

// The sum of the units, and that of each unit times its place from 1 on: from the last unit down, the second adds up the first.
fn print_sums<U: Unit>(rt: &impl Print, units: &[U]) -> io::Result<()> {
    let mut sum: u16 = 0;
    let mut weighted: u16 = 0;
    for unit in units.iter().rev() {
        sum = sum.wrapping_add((*unit).into());
        weighted = weighted.wrapping_add(sum);
    }
    println!(rt; "sum {sum:04X} {weighted:04X}")
}

fn print_untouched<U: Unit>(rt: &impl Print, units: &[U]) -> io::Result<()> {
    let untouched = units.iter().all(|unit| *unit == U::FILL);
    println!(rt; "untouched {}", if untouched { "yes" } else { "no" })
}

fn print_accepted<U: Unit>(rt: &impl Print, units: &[U]) -> io::Result<()> {
    let shown = SHOWN.min(units.len());
    println!(rt; "accepted {}", units.len())?;
    print!(rt; "begins")?;
    print_units(rt, &units[..shown])?;
    print!(rt; "ends")?;
    print_units(rt, &units[units.len() - shown..])?;
    print_sums(rt, units)
}

// The answer of a call, with the whole of the output that was lent to it.
pub(crate) fn print_answer<U: Unit>(
    rt: &impl Print,
    answer: Result<usize, Refused>,
    lent: &[U],
) -> io::Result<()> {
    println!(rt; " room {}", lent.len())?;
    match answer {
        Err(Refused { refusal, index }) => {
            println!(rt; "refused {} at {index}", u8::from(refusal))?;
            print_untouched(rt, lent)
        }
        Ok(filled) => {
            let Some((units, rest)) = lent.split_at_checked(filled) else {
                return println!(rt; "more filled than lent");
            };
            print_accepted(rt, units)?;
            print_untouched(rt, rest)
        }
    }
}
