// Immediate data as four hex digits, and back.
ghost use Rattle.std.specs.Prelude.{◌≡◌, ◌<◌, ◌/◌, ◌%◌, [], ◌∷◌, map, MatchOption};
ghost use Rattle.choice.specs.Text.{digit};
ghost use Rattle.listing.specs.Data.{no_digit, digit_of, data_in};
ghost use Rattle.listing.specs.Told.{option_told};

// The byte of a digit. lines has one of its own: it asks for a digit below 16, and what is public asks nothing.
fn digit(d: u16) -> u8
    requires { d < 16 }
    ensures { result ≡ digit d }
{
    if d < 10 {
        b'0' + d as u8
    } else {
        b'A' + (d as u8 - 10)
    }
}

// The four digits of data.
pub(crate) fn digits_of(operand: u16) -> [u8; 4]
    ensures { result ≡ map (λ high. digit (high % 16)) (operand / 0x1000 ∷ operand / 0x100 ∷ operand / 0x10 ∷ operand ∷ []) }
{
    [operand / 0x1000, operand / 0x100, operand / 0x10, operand].map(|high| digit(high % 16))
}

// The digit that a byte stands for. text has another, which takes small letters too.
fn digit_of(byte: u8) -> Option<u16>
    ensures { MatchOption result (digit_of byte ≡ no_digit) (λ d. (d ≡ digit_of byte) × (d < no_digit)) }
{
    match byte {
        b'0'..=b'9' => Some(u16::from(byte - b'0')),
        b'A'..=b'F' => Some(u16::from(byte - b'A') + 10),
        _ => None,
    }
}

// The data of a text.
pub(crate) fn data_in(text: &[u8]) -> Option<u16>
    ensures { option_told result ≡ data_in text.now }
{
    let [a, b, c, d] = text else {
        return None;
    };
    let high = 16 * digit_of(*a)? + digit_of(*b)?;
    let low = 16 * digit_of(*c)? + digit_of(*d)?;
    Some(256 * high + low)
}
