// How the programs read and write, over any reader and any writers: input, and whether it could be read; output, and what is said where that
// fails; and how each program is used. What a program makes of its input is not known here.
#![tactic(auto)]

mod reading; // reading.rt: input, and whether it could be read
mod writing; // writing.rt: output, what is said where it fails, and the lines of usage

use lines::Program;
pub use reading::{CHUNK, read_trace};
use std::io::Write;
use std::rt::{Env, HostRuntime, Stderr, Stdin, Stdout};
use streams::has_argument;
pub use streams::{ReadFailed, WriteFailed, fill};
pub use writing::{print_usage, say, write_made};

// What a program reads, what it writes, and where it says what it cannot do.
#[derive(Drop)]
pub struct Files<R, W, E> {
    pub input: R,
    pub output: W,
    pub errors: E,
}

// The standard files.
pub fn standard(rt: &HostRuntime) -> Files<Stdin, Stdout, Stderr> {
    Files {
        input: rt.stdin(),
        output: rt.stdout(),
        errors: rt.stderr(),
    }
}

// Whether a program is asked how it is used, which any argument does. That is then printed where errors go, and the program has nothing more
// to do.
pub fn asked<E: Write>(program: Program, env: &impl Env, errors: &mut E) -> bool {
    let asked = has_argument(env, 1);
    if asked {
        print_usage(program, errors);
    }
    asked
}
