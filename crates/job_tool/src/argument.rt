// The file that an argument names: specs/Internal/Leaves.antt.
ghost use Rattle.std.specs.Prelude.{◌≡◌, ◌≤◌, ℕ, List, IfErr, IfOk, IfSome, Ok, length};
ghost use Rattle.std.specs.Fn.{FnOnceReturnsAt};
ghost use Rattle.job_tool.specs.Internal.Leaves.{Leaves, LeavesRoom};

use crate::input::{JobBytes, Room, bytes_of, front, read_full};
use crate::words::{StandardError, say_failure};
use std::env::{Env, FillError};
use std::io::{Error, ErrorKind};
use std::rt::Files;
use std::{fmt, fs, io, str};

// The system's number for a name that is too long, for the words that belong to it: no `ErrorKind` has them.
const NAME_TOO_LONG: i32 = 36;

// Why there is no file to go by.
#[derive(Clone, Copy, Debug, PartialEq, Eq)]
pub enum Unread {
    NotOpened,
    NotRead,
}

impl fmt::Display for Unread {
    ghost use Rattle.std.specs.Prelude.{Some};
    ghost use Rattle.job_tool.specs.Internal.Words.{unread_words};

    ghost output = { λ unread. Some (unread_words unread) };

    fn fmt<W: fmt::Write>(&self, f: &mut fmt::Formatter<W>) -> fmt::Result {
        f.write_str(match self {
            Unread::NotOpened => "not opened",
            Unread::NotRead => "not read",
        })
    }
}

// How many arguments the program was started with, its own name among them.
pub fn argument_count(rt: &impl Env) -> usize {
    (0..usize::MAX)
        .find(|i| matches!(rt.arg(*i, &mut []), Err(FillError::NotPresent)))
        .unwrap_or(usize::MAX)
}

// What `step` gives of the bytes of the file that argument `i` names, of which there are at most as many as there is room for. None where
// the file was not opened or not read, which a line says instead.
pub fn with_file<R: Env + Files + Print + StandardError, T, F: FnOnce(&[u8]) -> io::Result<T>>(
    rt: &R,
    i: usize,
    step: F,
) -> io::Result<Option<T>>
    requires { F.IsAlwaysCallable step }
    ensures { IfOk result (λ given. IfSome given (λ t.
        (file : List ℕ) × (length file ≤ 65536) × FnOnceReturnsAt F.FnOnce step file (Ok t))) }
{
    let mut room: Room = [0; 65536];
    match read_into_room(rt, i, &mut room) {
        Ok(length) => Ok(Some(step(front(&room, length))?)),
        Err(unread) => {
            write_unread(rt, i, Err(unread))?;
            Ok(None)
        }
    }
}

// Reads the file that argument `i` names. Why a file was not opened or not read is said on standard error. The bytes are lent beside the
// `Result`: what stands in them where there is no file is promised, which a `Result` with the bytes in it could not say.
pub fn read_argument<R: Env + Files + StandardError>(
    rt: &R,
    i: usize,
    file: &mut JobBytes,
) -> Result<(), Unread>
    ensures { Leaves result file.old.items file.new.items }
{
    let mut room: Room = [0; 65536];
    let length = read_into_room(rt, i, &mut room)?;
    *file = bytes_of(front(&room, length));
    Ok(())
}

// Writes argument `i` on standard output.
pub fn write_argument<R: Env + Print>(rt: &R, i: usize) -> io::Result<()> {
    let mut text = [0u8; 4096];
    rt.write_all(argument(rt, i, &mut text))
}

// Begins a line that is about the file that argument `i` names.
pub fn write_name<R: Env + Print>(rt: &R, i: usize) -> io::Result<()> {
    write_argument(rt, i)?;
    print!(rt; ": ")
}

// The line of a file that was not opened or not read; nothing of one that was read.
pub fn write_unread<R: Env + Print>(rt: &R, i: usize, read: Result<(), Unread>) -> io::Result<()> {
    let Err(unread) = read else {
        return Ok(());
    };
    write_name(rt, i)?;
    println!(rt; "{unread}")
}

// The bytes of argument `i`, in a buffer that is lent, since they need not be text, as the library's list of arguments asks. Of an
// argument that is too long they are the beginning, which the host's `arg` leaves there; that is too long to be opened as well, so no
// other file is taken for it.
fn argument<'a>(rt: &impl Env, i: usize, text: &'a mut [u8; 4096]) -> &'a [u8]
    ensures { length result.now ≤ 4096 }
{
    match rt.arg(i, text) {
        Ok(length) => &text[..length],
        Err(FillError::TooLong) => text,
        Err(FillError::NotPresent) => &[],
    }
}

// Reads the file that argument `i` names to the front of `room`, and gives how many bytes it has.
fn read_into_room<R: Env + Files + StandardError>(
    rt: &R,
    i: usize,
    room: &mut Room,
) -> Result<usize, Unread>
    ensures { LeavesRoom result room.old room.new }
{
    let mut name = [0u8; 4096];
    read_named(rt, argument(rt, i, &mut name), room)
}

// Reads the file of a name. Where a read of it fails, as where the name is a folder's, it is not read.
fn read_named<R: Files + StandardError>(
    rt: &R,
    name: &[u8],
    room: &mut Room,
) -> Result<usize, Unread>
    ensures { LeavesRoom result room.old room.new }
{
    let mut opened = or_said(rt, name, Unread::NotOpened, open_named(rt, name))?;
    let (length, end) = read_full(&mut opened, room);
    or_said(rt, name, Unread::NotRead, end)?;
    Ok(length)
}

// What a step with the file of this name gave. Where it failed, that is said, and the file is `unread`.
fn or_said<T>(
    rt: &impl StandardError,
    name: &[u8],
    unread: Unread,
    given: io::Result<T>,
) -> Result<T, Unread>
    ensures { IfErr result (λ why. why ≡ unread) }
{
    given.map_err(|error| {
        say_failure(rt, name, error);
        unread
    })
}

// Opens the file of a name. The library's files are named by text. A name that fills its buffer is too long to be opened, and may be
// cut within a letter.
fn open_named<R: Files>(rt: &R, name: &[u8]) -> io::Result<R::File> {
    match str::from_utf8(name) {
        Ok(path) => fs::open(rt, path),
        Err(_) if name.len() < 4096 => Err(Error::from(ErrorKind::InvalidFilename)),
        Err(_) => Err(Error::from_raw_os_error(NAME_TOO_LONG)),
    }
}
