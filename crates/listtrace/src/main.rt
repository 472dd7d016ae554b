// Reads a trace on standard input and prints its instructions by their names, a cycle to a line. What it cannot do, and why, it says on
// standard error.
#![tactic(auto)]

use lines::Program;

fn main(rt: HostRuntime) {
    let mut files = files::standard(&rt);
    if files::asked(Program::ListTrace, &rt, &mut files.errors) {
        return;
    }
    listprinting::list_trace(&mut files);
}
