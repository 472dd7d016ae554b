// Numbers that stand in a text as digits.
ghost use Rattle.std.specs.Prelude.{◌≡◌, ◌<◌};
ghost use Rattle.streams.specs.Digits.{digit_value, hex_from, decimal_from};

// What a capital hexadecimal digit is worth; any other byte is 0.
fn digit_value(byte: u8) -> u8
    ensures { result ≡ digit_value byte }
{
    match byte {
        b'0'..=b'9' => byte - b'0',
        b'A'..=b'F' => byte - b'A' + 10,
        _ => 0,
    }
}

// The number of hexadecimal digits, below 2^64.
pub fn hex(digits: &[u8]) -> u64
    ensures { result ≡ hex_from 0 digits.now }
{
    let mut number: u64 = 0;
    for digit in digits {
        number = number
            .wrapping_mul(16)
            .wrapping_add(digit_value(*digit).into());
    }
    number
}

// The number of decimal digits, below 2^64, if they are that and nothing else.
pub fn decimal(digits: &[u8]) -> Option<usize>
    ensures { result ≡ decimal_from 0 digits.now }
{
    let mut number: usize = 0;
    for digit in digits {
        if *digit < b'0' || b'9' < *digit {
            return None;
        }
        number = number.wrapping_mul(10).wrapping_add((*digit - b'0').into());
    }
    Some(number)
}
