// Reads a trace on standard input, runs it from all zero, and prints its page. What it cannot do, and why, it says on
// standard error.
#![tactic(auto)]

use lines::Program;

fn main(rt: HostRuntime) {
    let mut files = files::standard(&rt);
    if files::asked(Program::RunTrace, &rt, &mut files.errors) {
        return;
    }
    printing::run_trace(&mut files);
}
