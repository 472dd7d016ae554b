// Reads a trace on standard input and prints its cycles, a line of hex words each. What it cannot do, and why, it says on
// standard error.
#![tactic(auto)]

use lines::Program;

fn main(rt: HostRuntime) {
    let mut files = files::standard(&rt);
    if files::asked(Program::UnpackTrace, &rt, &mut files.errors) {
        return;
    }
    printing::unpack_trace(&mut files);
}
