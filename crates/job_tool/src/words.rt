// What the programs write: lines on standard output, and words for people on standard error. Words that can't be written there are
// lost, and nothing else is.
use crate::pieces::Pieces;
use arrayvec::ArrayString;
use causes::Refusal;
use std::fmt::Write;
use std::io;
use std::io::Error;

// The line `refused NUMBER OFFSET`.
pub fn write_refusal(rt: &impl Print, refusal: Refusal) -> io::Result<()> {
    let number = u32::from(refusal.cause);
    let offset = refusal.offset;
    println!(Pieces { rt }; "refused {number} {offset}")
}

// Standard error, which takes bytes that need not be text, as a name of a file may be none.
pub trait StandardError: Eprint {
    fn write_error(&self, text: &[u8]) -> io::Result<()>;
}

impl StandardError for HostRuntime {
    fn write_error(&self, text: &[u8]) -> io::Result<()> {
        self.stderr().write_all(text)
    }
}

// The line that says why a file of this name was not opened or not read: the name, a colon and the error's words, without its number.
pub(crate) fn say_failure(rt: &impl StandardError, name: &[u8], error: Error) {
    let mut text = ArrayString::<256>::new();
    let _ = write!(text, "{error}");
    let words = without_number(text.as_str());
    let _ = rt.write_error(name);
    let _ = eprintln!(Pieces { rt }; ": {words}");
}

// What stands before ` (os error `.
fn without_number(text: &str) -> &str {
    text.split_once(" (os error ")
        .map_or(text, |(words, _)| words)
}
