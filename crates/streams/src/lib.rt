// The streams of the programs, which go on where one fails: a failed read is the end of the input, and a failed write is not told.
// So a program ends with status 0 whatever is wrong with its streams.
#![tactic(auto)]

ghost use Rattle.std.specs.Prelude.{IsOk, None};
ghost use Rattle.std.specs.Io.{ReadsAtMost};
ghost use Rattle.std.specs.Io.KnownBytes.{ReadConsumes};

use std::fmt::Display;
use std::io;
use std::io::Read;

#[derive(Drop)]
pub struct Input<R>(pub R);

impl<R: Read> Read for Input<R> {
    fn read(&mut self, buf: &mut [u8]) -> io::Result<usize>
        ensures bound { ReadsAtMost result buf.new }
        ensures bytes { ReadConsumes None None result buf.new }
        ensures never_fails { IsOk result }
    {
        Ok(self.0.read(buf).unwrap_or(0))
    }
}

#[derive(Drop)]
pub struct Output<P>(pub P);

impl<P: Print> Print for Output<P> {
    fn print<D: Display + Drop>(&self, value: D) -> io::Result<()>
        ensures { IsOk result }
    {
        let _ = self.0.print(value);
        Ok(())
    }

    fn println<D: Display + Drop>(&self, value: D) -> io::Result<()>
        ensures { IsOk result }
    {
        let _ = self.0.println(value);
        Ok(())
    }

    fn write_all(&self, bytes: &[u8]) -> io::Result<()>
        ensures { IsOk result }
    {
        let _ = self.0.write_all(bytes);
        Ok(())
    }
}
