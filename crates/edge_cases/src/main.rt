// Runs the programs for traces and listings over the files that its arguments name. They come in threes: a program, how its output goes ("written", or
// "blocked" where it cannot be written), and a file. Each case has a line with the three, and then what the program writes and says, both on
// standard output.
#![tactic(auto)]

ghost use Rattle.std.specs.Prelude.{◌<◌};

use files::Files;
use lines::Program;
use std::fs::File;
use std::io;
use std::io::{Error, ErrorKind, Read, Write};
use std::rt::{Env, Files as FileSystem};
use streams::{Regardless, argument, has_argument, open};

// The most bytes of an argument, and the most arguments: more are passed over.
const NAME_BYTES: usize = 64;

const MOST_ARGUMENTS: usize = 1000;

// What stands for a file that cannot be opened: nothing can be read of it, and nothing written to it.
#[derive(Clone, Copy)]
struct Unopened;

impl Read for Unopened {
    fn read(&mut self, _bytes: &mut [u8]) -> io::Result<usize> {
        Err(Error::from(ErrorKind::NotFound))
    }
}

impl Write for Unopened {
    fn write(&mut self, _bytes: &[u8]) -> io::Result<usize> {
        Err(Error::from(ErrorKind::NotFound))
    }

    fn flush(&mut self) -> io::Result<()> {
        Ok(())
    }
}

// An argument, or nothing where there is none.
fn text_of<'a>(env: &impl Env, place: usize, bytes: &'a mut [u8]) -> &'a [u8] {
    let n = argument(env, place, bytes).unwrap_or(0);
    &bytes[..n]
}

// Runs a program over an input and two outputs. The third letter of its name tells which.
fn run_program<R: Read + Drop, W: Write + Drop, E: Write + Drop>(
    name: &[u8],
    input: R,
    output: W,
    errors: E,
) {
    let mut files = Files {
        input,
        output,
        errors,
    };
    match name {
        [_, _, b'n', ..] => printing::run_trace(&mut files),
        [_, _, b'c', ..] => printing::pack_text(&mut files),
        [_, _, b's', ..] => listprinting::list_trace(&mut files),
        [_, _, b'a', ..] => listprinting::read_list(&mut files),
        _ => printing::unpack_trace(&mut files),
    }
}

// Runs a case. Where its output is blocked, that is the input's own file, which is open for reading alone.
fn run_case<R: Env + FileSystem<File = File> + Print>(
    to: &impl Print,
    rt: &R,
    first: usize,
) -> io::Result<()>
    requires { first < 1000 }
{
    let mut program = [0; NAME_BYTES];
    let mut way = [0; NAME_BYTES];
    let mut name = [0; NAME_BYTES];
    let program = text_of(rt, first, &mut program);
    let way = text_of(rt, first + 1, &mut way);
    let name = text_of(rt, first + 2, &mut name);
    to.write_all(b"== ")?;
    to.write_all(program)?;
    to.write_all(b" ")?;
    to.write_all(way)?;
    to.write_all(b" ")?;
    to.write_all(name)?;
    to.write_all(b"\n")?;
    let errors = io::writer(rt);
    match (open(rt, name), way) {
        (Some(file), [b'b', ..]) => run_program(program, &file, &file, errors),
        (Some(file), _) => run_program(program, &file, io::writer(rt), errors),
        (None, [b'b', ..]) => run_program(program, Unopened, Unopened, errors),
        (None, _) => run_program(program, Unopened, io::writer(rt), errors),
    }
    Ok(())
}

fn print_edges(to: &impl Print, rt: &HostRuntime) -> io::Result<()> {
    let mut output = rt.stdout();
    println!(to; "== usage")?;
    for program in [
        Program::RunTrace,
        Program::PackTrace,
        Program::UnpackTrace,
        Program::ListTrace,
        Program::ReadList,
    ] {
        files::print_usage(program, &mut output);
    }
    for first in (1..MOST_ARGUMENTS).step_by(3) {
        if !has_argument(rt, first + 2) {
            break;
        }
        run_case(to, rt, first)?;
    }
    Ok(())
}

// Where something cannot be printed there is nobody to tell, and what follows is printed all the same.
fn main(rt: HostRuntime) {
    let _ = print_edges(&Regardless { to: &rt }, &rt);
}
