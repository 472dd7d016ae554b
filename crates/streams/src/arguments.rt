// What a program was started with.
ghost use Rattle.std.specs.Prelude.{◌≤◌, length, IfSome};

use std::env::FillError;
use std::fs::File;
use std::rt::{Env, Files};
use std::str;

// Whether there is such an argument. The first one after the program's name is argument 1.
pub fn has_argument(env: &impl Env, argument: usize) -> bool {
    !matches!(env.arg(argument, &mut [0; 1]), Err(FillError::NotPresent))
}

// Puts an argument at the start of a slice, and answers how long it is, if there is such an argument and it has room.
pub fn argument(env: &impl Env, argument: usize, bytes: &mut [u8]) -> Option<usize>
    ensures { IfSome result (λ n. n ≤ length bytes.new) }
{
    env.arg(argument, bytes).ok()
}

// The file of a name, open for reading, if there is one.
pub fn open<R: Files>(rt: &R, name: &[u8]) -> Option<R::File> {
    let path = str::from_utf8(name).ok()?;
    File::open(rt, path).ok()
}
