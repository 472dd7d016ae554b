// The items of a line: what stands between blanks.
ghost use Rattle.std.specs.Prelude.{◌≤◌, length};

// An item: the column of its first byte, from 1, and its bytes.
#[derive(Clone, Copy)]
pub(crate) struct Item<'a> {
    pub(crate) column: usize,
    pub(crate) text: &'a [u8],
}

// A line and how far it has been read: up to an index that is not inside an item.
#[derive(Clone, Copy)]
pub(crate) struct Items<'a> {
    pub(crate) line: &'a [u8],
    pub(crate) at: usize,
    ghost within: { at ≤ length line.now },
}
