// The programs for traces, over any files: each reads its input, makes one call of `pages` for a trace, or one for each piece of a text and one
// at its end, and writes what they give.
#![tactic(auto)]

mod programs; // programs.rt: the three programs

pub use programs::{pack_text, run_trace, unpack_trace};
