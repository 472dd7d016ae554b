// A word taken apart.
ghost use Rattle.std.specs.Prelude.{◌<◌};

// A word's mark, quadrant and fields. They are lent to the decision: five bytes by value are packed into one register and taken apart again.
#[derive(Clone, Copy)]
pub(crate) struct Fields {
    pub(crate) mark: u8,
    pub(crate) quadrant: u8,
    pub(crate) a: u8,
    pub(crate) b: u8,
    pub(crate) c: u8,
    ghost in_range: { (mark < 2) × (quadrant < 4) × (a < 16) × (b < 16) × (c < 32) },
}
