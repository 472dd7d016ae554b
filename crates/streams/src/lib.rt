// Bytes in and out, over any reader and any writer: input until a slice is full or it ends, and whether it could be read; output, and whether
// it went out.
#![tactic(auto)]

mod arguments; // arguments.rt: what a program was started with
mod digits; // digits.rt: numbers that stand in a text as digits
mod printing; // printing.rt: what is printed with nobody to tell where it fails
mod reading; // reading.rt: input, and whether it could be read
mod writing; // writing.rt: output, and whether it went out

pub use arguments::{argument, has_argument, open};
pub use digits::{decimal, hex};
pub use printing::Regardless;
pub use reading::{ReadFailed, fill};
pub use writing::{WriteFailed, write_all};
