// Why a call or a file is refused: documents 01 and 02, "What each cause gives". The numbers of refusals stand here and nowhere else in
// the code; 7 is none.
#![tactic(auto)]

ghost use Rattle.std.specs.Prelude.{◌≡◌};

use std::fmt;

// A cause of the documents' table, in its order.
#[derive(Clone, Copy, Debug, PartialEq, Eq)]
pub enum Cause {
    // of the file
    FileLength,
    NoTrailer,
    PartOffsets,
    LineForm,
    NumberValue,
    RepeatedId,
    TooManyLines,
    // of what comes with it: a lent list that is too short, an id that the file does not have
    ListTooShort,
    NoPane,
    NoGlass,
}

// Why a call or a file is refused, and where in the file.
#[derive(Clone, Copy, Debug, PartialEq, Eq)]
pub struct Refusal {
    pub cause: Cause,
    pub offset: usize,
}

impl Cause {
    // The refusal for this cause at an offset of the file; a call that is refused for what came with the file is at 0.
    pub fn at(self, offset: usize) -> Refusal
        ensures { result ≡ record { cause = self; offset = offset } }
    {
        Refusal {
            cause: self,
            offset,
        }
    }
}

// A cause's number.
impl From<Cause> for u32 {
    ghost use Rattle.causes.specs.Cause.{number_of};

    ghost from_gives = { λ cause number. number ≡ number_of cause };

    fn from(cause: Cause) -> u32 {
        match cause {
            Cause::FileLength => 1,
            Cause::NoTrailer => 2,
            Cause::PartOffsets => 3,
            Cause::LineForm => 4,
            Cause::NumberValue => 5,
            Cause::RepeatedId => 6,
            Cause::TooManyLines => 8,
            Cause::ListTooShort => 9,
            Cause::NoPane => 10,
            Cause::NoGlass => 11,
        }
    }
}

// A cause in plain words, and of some what to do about it.
impl fmt::Display for Cause {
    ghost use Rattle.std.specs.Prelude.{Some};
    ghost use Rattle.causes.specs.Internal.Words.{words_of};

    ghost output = { λ cause. Some (words_of cause) };

    fn fmt<W: fmt::Write>(&self, f: &mut fmt::Formatter<W>) -> fmt::Result {
        f.write_str(match self {
            Cause::FileLength =>
                "the file is under 14 or over 65,535 bytes; is it the whole job file, and are its notes short enough?",
            Cause::NoTrailer =>
                "the file does not end in T, a space, five digits, a space, five digits and a newline",
            Cause::PartOffsets =>
                "the last line's numbers, where the glass part and the pane part begin, are out of order or too large",
            Cause::LineForm =>
                "the line is not G and 8 numbers, or P or Q and 9, one space and one to five digits each, no zeros in front, and a newline",
            Cause::NumberValue =>
                "a number is not among its allowed values; compare the line with the description of the job file",
            Cause::RepeatedId =>
                "the id is already on an earlier line of this part; give the line an id of its own",
            Cause::TooManyLines =>
                "the part has more than 64 glass lines or 256 pane lines; divide the job among several files, and each stock with it",
            Cause::ListTooShort =>
                "a list that was lent has fewer entries than the file has panes; lend one with an entry for each pane",
            Cause::NoPane => "no pane of the file has that id",
            Cause::NoGlass => "no glass of the file has that id",
        })
    }
}
