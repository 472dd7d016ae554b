// What a byte of the text is.
ghost use Rattle.std.specs.Prelude.{◌≡◌};
ghost use Rattle.text.specs.Bytes.{digit_value, kind_of};

use crate::Kind;

// What a hex digit is worth.
#[tactic(auto, unfolding(crate::specs::Bytes::digit_value))]
fn digit_value(byte: u8) -> Option<u8>
    ensures { result ≡ digit_value byte }
{
    match byte {
        b'0'..=b'9' => Some(byte - b'0'),
        b'A'..=b'F' => Some(byte - b'A' + 10),
        b'a'..=b'f' => Some(byte - b'a' + 10),
        _ => None,
    }
}

#[tactic(auto, unfolding(crate::specs::Bytes::kind_of))]
pub(crate) fn kind_of(byte: u8) -> Kind
    ensures { result ≡ kind_of byte }
{
    if matches!(byte, b'\n' | b'#') {
        return Kind::Over;
    }
    if matches!(byte, b' ' | b'\t' | b'\r') {
        return Kind::Blank;
    }
    match digit_value(byte) {
        Some(value) => Kind::Digit(value),
        None => Kind::Other,
    }
}
