// Reading a file into memory. Which bytes a read of the system gives, no contract can say.
ghost use Rattle.std.specs.Prelude.{◌≡◌, ◌≤◌, ℕ, List, length, take};
ghost use Rattle.std.specs.Fn.{FnOnceReturnsAt};

use arrayvec::ArrayVec;
use std::io;
use std::io::Read;

// What a file is read into: fixed memory, so that no file is refused for want of memory. There is room for a byte more than a job file
// may have: a file that fills it is too long, whatever follows.
pub(crate) type Room = [u8; 65536];

// The bytes of a file in a list of their own, for who keeps them. The programs have no need to: they go by `with_input` and `with_file`.
pub type JobBytes = ArrayVec<u8, 65536>;

// What `step` gives of what standard input gives, of which there is at most as much as there is room for. Where a read fails, that is what
// was read before.
pub fn with_input<T, F: FnOnce(&[u8]) -> T>(rt: &impl Input, step: F) -> T
    requires { F.IsAlwaysCallable step }
    ensures { (file : List ℕ) × (length file ≤ 65536) × FnOnceReturnsAt F.FnOnce step file result }
{
    let mut room: Room = [0; 65536];
    let (length, _) = read_full(&mut rt.reader(), &mut room);
    step(front(&room, length))
}

// What standard input gives, as a list. Where a read fails, that is what was read before.
pub fn read_input(rt: &impl Input) -> JobBytes
    ensures { length result.items ≤ 65536 }
{
    let mut room: Room = [0; 65536];
    let (length, _) = read_full(&mut rt.reader(), &mut room);
    bytes_of(front(&room, length))
}

// The bytes that were read to the front of a room.
pub(crate) fn front(room: &Room, count: usize) -> &[u8]
    requires { count ≤ 65536 }
    ensures bytes { result.now ≡ take count room.now }
    ensures bound { length result.now ≤ 65536 }
{
    &room[..count]
}

// The same in a list of their own.
pub(crate) fn bytes_of(read: &[u8]) -> JobBytes
    requires { length read.now ≤ 65536 }
    ensures { result.items ≡ read.now }
{
    let mut bytes = JobBytes::new();
    let _ = bytes.try_extend_from_slice(read);
    bytes
}

// Reads until the room is full, the input ends or a read fails. Gives how many bytes stand at its front, and the failure: what was read
// before one is kept. Each read is lent all the room that is left, since an input that gives whole messages cuts off what does not fit, and
// a read that is interrupted has failed: `io::copy` would read in pieces, and again for as long as reads are interrupted.
pub(crate) fn read_full(input: &mut impl Read, room: &mut [u8]) -> (usize, io::Result<()>)
    ensures { result.0 ≤ length room.new }
{
    let mut done = 0;
    while done < room.len() {
        match input.read(&mut room[done..]) {
            Ok(0) => break,
            Ok(count) => done += count,
            Err(error) => return (done, Err(error)),
        }
    }
    (done, Ok(()))
}
