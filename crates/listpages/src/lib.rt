// What the programs for listings write, as calls on slices: a trace by the names of its instructions, and the words of a listing.
#![tactic(auto)]

mod draft; // draft.rt: text that is being made, line after line
mod entries; // entries.rt: the line of a word, and the answer to a line
mod listing_trace; // listing_trace.rt: a trace, and its listing
mod answering; // answering.rt: the lines of a listing, and their words

pub use answering::{ANSWER_BYTES, PIECE_BYTES, read_lines};
pub use listing_trace::{LIST_BYTES, list_trace};

// A reader of a listing: whether the next line is the data of an instruction, and how many lines were refused.
#[derive(Clone, Copy)]
pub struct Reading {
    pub waits: bool,
    pub refused: u64,
}

// The reader after some lines, and how many bytes there are for standard output; none is told where the slice is too short for them.
#[derive(Clone, Copy)]
pub struct LinesRead {
    pub reading: Reading,
    pub output: Option<usize>,
}
