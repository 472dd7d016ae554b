// Reads a listing on standard input and prints the word of each line in hex, or why the line cannot be read. What it cannot do, and why, it says on
// standard error.
#![tactic(auto)]

use lines::Program;

fn main(rt: HostRuntime) {
    let mut files = files::standard(&rt);
    if files::asked(Program::ReadList, &rt, &mut files.errors) {
        return;
    }
    listprinting::read_list(&mut files);
}
