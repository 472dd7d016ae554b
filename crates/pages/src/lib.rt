// What each program for traces writes, as calls on slices: the text for standard output, and what is said on standard error.
#![tactic(auto)]

mod draft; // draft.rt: text that is being made, line after line
mod running; // running.rt: a trace, and the page of its run
mod unpacking; // unpacking.rt: a trace, and its words as text
mod packing; // packing.rt: a text, and the trace of its words

pub use packing::{PACKED_WORDS, SAID_BYTES, end_text, take_text};
pub use running::{PAGE_BYTES, run_trace};
use text::Reader;
pub use unpacking::{TEXT_BYTES, unpack_trace};

// How many bytes there are for standard output and for standard error; none is told where a slice is too short for them.
#[derive(Clone, Copy)]
pub struct Written {
    pub output: Option<usize>,
    pub said: Option<usize>,
}

// The reader of a text after one more piece, and what is said of the piece.
#[derive(Clone, Copy)]
pub struct PieceTaken {
    pub reader: Reader,
    pub said: Option<usize>,
}
