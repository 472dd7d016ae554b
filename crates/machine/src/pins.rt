// The pins of a cycle, by their levels. These stay a word, as in `Words` and in the definitions: a type of its own would only put a field's name
// into every contract.
ghost use Rattle.std.specs.Prelude.{◌≡◌};
ghost use Rattle.machine.specs.Pins.{ien_high, both_low, dle_high, oe_y_high, oe_t_high, t_inputs, stray_pin, bus_clash};

pub(crate) fn ien_high(pins: u16) -> bool
    ensures { result ≡ ien_high pins }
{
    pins % 2 == 1
}

// IEN and SRE.
pub(crate) fn both_low(pins: u16) -> bool
    ensures { result ≡ both_low pins }
{
    pins % 4 == 0
}

pub(crate) fn dle_high(pins: u16) -> bool
    ensures { result ≡ dle_high pins }
{
    pins / 4 % 2 == 1
}

pub(crate) fn oe_y_high(pins: u16) -> bool
    ensures { result ≡ oe_y_high pins }
{
    pins / 8 % 2 == 1
}

pub(crate) fn oe_t_high(pins: u16) -> bool
    ensures { result ≡ oe_t_high pins }
{
    pins / 16 % 2 == 1
}

pub(crate) fn t_inputs(pins: u16) -> u8
    ensures { result ≡ t_inputs pins }
{
    (pins / 256 % 16) as u8
}

// A bit that must be 0 is 1.
pub(crate) fn stray_pin(pins: u16) -> bool
    ensures { result ≡ stray_pin pins }
{
    pins / 32 % 8 != 0 || pins / 4096 != 0
}

// DLE high with OE_Y low.
pub(crate) fn bus_clash(pins: u16) -> bool
    ensures { result ≡ bus_clash pins }
{
    pins / 4 % 4 == 1
}
