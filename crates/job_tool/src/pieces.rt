// Standard output and standard error with no buffer before them: each piece of a line, a number or the words about it, is written by
// itself. So an output that is not waited for, as a pipe that is nearly full, takes as much of a line as it has room for. The newline of
// `println!` is a piece too; one that stands in the words belongs to them.
use crate::words::StandardError;
use std::fmt::{Display, Write};
use std::io::Error;
use std::{fmt, io};

// Where `R` prints, piece by piece: on its standard output by `print!`, on its standard error by `eprint!`.
#[derive(Clone, Copy)]
pub struct Pieces<'a, R> {
    pub rt: &'a R,
}

// The pieces go out as they come, up to one that can't be written.
#[derive(Drop)]
struct Output<'a, R> {
    rt: &'a R,
    error: Option<Error>,
}

impl<R: Print> fmt::Write for Output<'_, R> {
    fn write_str(&mut self, piece: &str) -> fmt::Result {
        match self.rt.write_all(piece.as_bytes()) {
            Ok(()) => Ok(()),
            Err(error) => {
                self.error = Some(error);
                Err(fmt::Error)
            }
        }
    }
}

impl<'a, R> Output<'a, R> {
    fn new(rt: &'a R) -> Self {
        Output { rt, error: None }
    }

    // What came of all the pieces.
    fn end(self) -> io::Result<()> {
        match self.error {
            Some(error) => Err(error),
            None => Ok(()),
        }
    }
}

impl<R: Print> Print for Pieces<'_, R> {
    fn print<D: Display + Drop>(&self, value: D) -> io::Result<()> {
        let mut output = Output::new(self.rt);
        let _ = output.write(value);
        output.end()
    }

    fn println<D: Display + Drop>(&self, value: D) -> io::Result<()> {
        let mut output = Output::new(self.rt);
        let _ = output.writeln(value);
        output.end()
    }

    fn write_all(&self, bytes: &[u8]) -> io::Result<()> {
        self.rt.write_all(bytes)
    }
}

// Of what is said for people each piece that can't be written is lost, and no other.
#[derive(Clone, Copy)]
struct Said<'a, R> {
    rt: &'a R,
}

impl<R: StandardError> fmt::Write for Said<'_, R> {
    fn write_str(&mut self, piece: &str) -> fmt::Result {
        let _ = self.rt.write_error(piece.as_bytes());
        Ok(())
    }
}

impl<R: StandardError> Eprint for Pieces<'_, R> {
    fn eprint<D: Display + Drop>(&self, value: D) -> io::Result<()> {
        let _ = Said { rt: self.rt }.write(value);
        Ok(())
    }

    fn eprintln<D: Display + Drop>(&self, value: D) -> io::Result<()> {
        let _ = Said { rt: self.rt }.writeln(value);
        Ok(())
    }
}
