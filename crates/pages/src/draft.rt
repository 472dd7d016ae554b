// Text that is being made, line after line. Private, as in lines and listpages: it asks for a function that may be called, and what is public asks nothing
// of its callers (demands, `every_contract`).
ghost use Rattle.std.specs.Prelude.{◌≡◌, ℕ, ◌+◌, ◌≤◌, List, [], ◌++◌, length, take, Option};
ghost use Rattle.std.specs.Fn.{FnOnceReturnsAtMut};
ghost use Rattle.lines.specs.Answers.{Makes};

use std::marker::Model;

// The bytes that are made so far, and room for N of them.
#[derive(Drop)]
pub(crate) struct Draft<const N: usize> {
    bytes: [u8; N],
    length: usize,
}

impl<const N: usize> Model for Draft<N> {
    ghost Value = { List ℕ };

    ghost view = { λ d. take d.length d.bytes };

    ghost invariant = { λ d. d.length ≤ N };
}

impl<const N: usize> Draft<N> {
    pub(crate) fn new() -> Self
        ensures { result ≡ [] }
    {
        Draft {
            bytes: [0; N],
            length: 0,
        }
    }

    // Adds a line, which a function makes in the room that is left.
    pub(crate) fn add<F: FnOnce(&mut [u8]) -> Option<usize>>(&mut self, make: F)
        requires { F.IsAlwaysCallable make }
        ensures { (line : List ℕ) → ((before after : List ℕ) (r : Option ℕ) → FnOnceReturnsAtMut F.FnOnce make before r after → Makes line r before after) → length self.old + length line ≤ N → self.new ≡ self.old ++ line }
    {
        let room = N - self.length;
        let bytes = &mut self.bytes[..];
        let made = make(&mut bytes[self.length..]).unwrap_or(0);
        self.length += made.min(room);
    }

    pub(crate) fn hand_over(&self, out: &mut [u8]) -> Option<usize>
        ensures { Makes self.now result out.old out.new }
    {
        lines::hand_over(&self.bytes[..self.length], out)
    }
}
