// Reads a trace as hex text on standard input and writes its blocks to standard output. What it cannot do, and why, it says on
// standard error.
#![tactic(auto)]

use lines::Program;

fn main(rt: HostRuntime) {
    let mut files = files::standard(&rt);
    if files::asked(Program::PackTrace, &rt, &mut files.errors) {
        return;
    }
    printing::pack_text(&mut files);
}
