// Numbers into digits.
ghost use Rattle.std.specs.Prelude.{◌≡◌, ◌≤◌, ◌<◌, length};
ghost use Rattle.choice.specs.Text.{digit, numeral, trimmed, digit_or_none};

fn digit_of(d: u8) -> u8
    requires { d < 16 }
    ensures { result ≡ digit d }
{
    if d < 10 { b'0' + d } else { b'A' + (d - 10) }
}

// A digit below a limit, or "-".
pub(crate) fn digit_or_none(x: u16, limit: u16) -> u8
    requires { limit ≤ 16 }
    ensures { result ≡ digit_or_none limit x }
{
    if x < limit { digit_of(x as u8) } else { b'-' }
}

// The last digits of x in a base, as many as the part has room for. One loop over a slice, from the last digit on: a call for each digit, with its length
// kept in the draft, made the lines of a trace take 1.8 times as many instructions.
pub(crate) fn spell(x: u64, base: u64, part: &mut [u8])
    requires { (2 ≤ base) × (base ≤ 16) }
    ensures { part.new ≡ numeral base (length part.old) x }
{
    let mut i = part.len();
    let mut rest = x;
    while i != 0 {
        i -= 1;
        part[i] = digit_of((rest % base) as u8);
        rest /= base;
    }
}

// Digits without the zeros in front of another digit.
pub(crate) fn trimmed(digits: &[u8]) -> &[u8]
    ensures { result.now ≡ trimmed digits.now }
{
    let mut rest = digits;
    while let [b'0', _, ..] = rest {
        rest = &rest[1..];
    }
    rest
}
