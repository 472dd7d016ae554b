// Where things stand in a trace block, and how large a trace may be.
use run::MOST_CYCLES;

// The words of a record, and those that a block has room for.
pub(crate) const WORDS_PER_RECORD: usize = 3;

pub(crate) const BLOCK_WORDS: usize = 252;

// The records of a full block.
pub(crate) const FULL_COUNT: usize = BLOCK_WORDS / WORDS_PER_RECORD;

pub(crate) const BLOCK_BYTES: usize = 512;

pub(crate) type Block = [u8; BLOCK_BYTES];

// Where the records begin, and where the two bytes of the check stand, which is over the bytes before it.
pub(crate) const RECORDS_AT: usize = 4;

pub(crate) const CHECK_AT: usize = 510;

// The blocks that the most cycles of a run take: rounded up by hand, since a constant's value calls nothing.
pub(crate) const MOST_BLOCKS: usize = (MOST_CYCLES * WORDS_PER_RECORD + BLOCK_WORDS - 1)
    / BLOCK_WORDS;

// The most bytes of a trace, and those of one block more.
pub const TRACE_BYTES: usize = MOST_BLOCKS * BLOCK_BYTES;

pub(crate) const TOO_LONG: usize = TRACE_BYTES + BLOCK_BYTES;

// Room for what is kept of an input of any length.
pub const INPUT_BYTES: usize = TOO_LONG + BLOCK_BYTES;

// The words of the most cycles.
pub const CYCLE_WORDS: usize = WORDS_PER_RECORD * MOST_CYCLES;
