// Reading to the end of the input, and writing all of a text. A call that a signal broke off, or that found the descriptor not ready, is
// made again; any other failure ends the work, and is told with its reason.
ghost use Rattle.std.specs.Prelude.{◌≡◌, ◌≤◌, length, IfOk};

use std::io::{ErrorKind, Read, Write};
use std::{io, thread};

// A proved loop has to end, and nothing says that a descriptor is ready one day. So such a loop has this many turns, more than any run
// uses up.
const TURNS: u64 = u64::MAX;

// Whether the call that just failed is to be made again. The other processes have their turn first.
fn is_to_wait(error: &io::Error) -> bool {
    if error.kind() == ErrorKind::Interrupted {
        return true;
    }
    if error.kind() == ErrorKind::WouldBlock {
        thread::yield_now();
        return true;
    }
    false
}

// One read, once the descriptor is ready.
fn read_some<R: Read>(from: &mut R, room: &mut [u8]) -> io::Result<usize>
    ensures { IfOk result (λ got. got ≤ length room.old) }
{
    for _ in 0..TURNS {
        match from.read(room) {
            Err(error) if is_to_wait(&error) => continue,
            told => return told,
        }
    }
    Err(io::Error::from(ErrorKind::TimedOut))
}

// One write, once the descriptor is ready. One function for this and for reading would take a closure over the descriptor and the bytes, and state
// what each call of it promises: no plainer than these few lines.
fn write_some<W: Write>(to: &mut W, text: &[u8]) -> io::Result<usize>
    ensures { IfOk result (λ put. put ≤ length text.now) }
{
    for _ in 0..TURNS {
        match to.write(text) {
            Err(error) if is_to_wait(&error) => continue,
            told => return told,
        }
    }
    Err(io::Error::from(ErrorKind::TimedOut))
}

// Reads until the input ends or the buffer is full: so many bytes stand in front of the buffer then. `done` is no index: it grows by what was read.
pub fn read_to_end<R: Read>(from: &mut R, buf: &mut [u8]) -> io::Result<usize>
    ensures { IfOk result (λ n. n ≤ length buf.old) }
{
    let mut done = 0;
    while done < buf.len() {
        let more = read_some(from, &mut buf[done..])?;
        if more == 0 {
            break;
        }
        done += more;
    }
    Ok(done)
}

// Writes all of the text, and tells how many bytes that were. Where it fails, a part of them may be written. `done` grows by what was written.
pub fn write_to_end<W: Write>(to: &mut W, text: &[u8]) -> io::Result<usize>
    ensures { IfOk result (λ n. n ≡ length text.now) }
{
    let mut done = 0;
    while done < text.len() {
        let put = write_some(to, &text[done..])?;
        if put == 0 {
            return Err(io::Error::from(ErrorKind::WriteZero));
        }
        done += put;
    }
    Ok(done)
}
