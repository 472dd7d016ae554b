// The programs for listings, over any files: each reads its input, makes calls of `listpages`, and writes what they give.
#![tactic(auto)]

mod listing_trace; // listing_trace.rt: a trace in, its listing out
mod reading_list; // reading_list.rt: a listing in, its words out

pub use listing_trace::list_trace;
pub use reading_list::read_list;
