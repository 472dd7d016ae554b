// What a program prints with nobody to tell where it fails.
ghost use Rattle.std.specs.Prelude.{IsOk};

use std::fmt::Display;
use std::io;

// Prints through another, and says that all went well whatever came of it: what follows is printed all the same.
#[derive(Drop)]
pub struct Regardless<P> {
    pub to: P,
}

impl<P: Print> Print for Regardless<P> {
    fn print<D: Display + Drop>(&self, value: D) -> io::Result<()>
        ensures { IsOk result }
    {
        let _ = self.to.print(value);
        Ok(())
    }

    fn println<D: Display + Drop>(&self, value: D) -> io::Result<()>
        ensures { IsOk result }
    {
        let _ = self.to.println(value);
        Ok(())
    }

    fn write_all(&self, bytes: &[u8]) -> io::Result<()>
        ensures { IsOk result }
    {
        let _ = self.to.write_all(bytes);
        Ok(())
    }
}
