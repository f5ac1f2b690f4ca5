// Reads one sheet from standard input, to its end, and writes its report to standard output. Where it cannot read or write, it says so in
// one line on standard error, and there is no answer.
//
// The buffer is longer than any sheet, so longer input is refused for its length whatever follows.
#![tactic(auto)]

mod stream;

ghost use Rattle.std.specs.Prelude.{◌≡◌, ◌≤◌, length};
ghost use Rattle.answers.specs.Report.{report, report_room};
ghost use Rattle.mark.specs.Streams.{bytes_read};

use oatmist::Answer;
use std::env::{Env, FillError};
use std::fmt::InlineText;
use std::io::{Eprint, Error, Print};

// Puts what is to be written into the front of the room, and gives back that part of it: the report of the bytes that were read.
fn put_report<'a>(read: &[u8], room: &'a mut [u8]) -> &'a [u8]
    requires { report_room ≤ length room.old }
    ensures { result.now ≡ report read.now }
{
    let answer = oatmist::report(read, room);
    let Answer::Given(size) = answer else {
        return &[];
    };
    &room[..size as usize]
}

// Whether the program was called with an argument.
fn has_argument(rt: &impl Env) -> bool {
    let mut word = [0u8; 64];
    !matches!(rt.arg(1, &mut word), Err(FillError::NotPresent))
}

// Tells that the whole answer was written, on descriptor 3, to a caller that asked for it by an argument. Only who has written as many
// bytes as the report of what was read has may tell so.
fn tell_written(rt: &impl Env, put: usize, input: Result<usize, Error>, sheet: &[u8])
    requires { put ≡ length (report (bytes_read input sheet.now)) }
{
    if has_argument(rt) {
        io::write_all(3, b"written\n");
    }
}

// The reason of an error in the system's words, without its number, which follows in brackets.
fn words_of(told: &str) -> &str {
    told.split_once(" (os error ")
        .map_or(told, |(words, _)| words)
}

// Says in one line on standard error what failed, and the reason.
fn fail(rt: &impl Eprint, what: &str, error: Error) {
    let told = InlineText::<256>::of(error);
    let reason = words_of(told.as_str());
    let _ = eprintln!(rt; "mark: {what}: {reason}");
}

// Writes the text, which must be the report of the bytes that reading gave, and tells that it is written.
fn give_answer<R: Env + Print + Eprint>(
    rt: &R,
    input: Result<usize, Error>,
    sheet: &[u8],
    text: &[u8],
)
    requires { text.now ≡ report (bytes_read input sheet.now) }
{
    match stream::write_to_end(&mut std::io::writer(rt), text) {
        Ok(put) => tell_written(rt, put, input, sheet),
        Err(error) => fail(rt, "standard output", error),
    }
}

fn main(rt: HostRuntime) {
    let mut sheet = io::large_buffer();
    let input = stream::read_to_end(&mut rt.stdin(), &mut sheet);
    let n = match input {
        Ok(n) => n,
        Err(error) => {
            fail(&rt, "standard input", error);
            return;
        }
    };
    let mut room = io::large_buffer();
    let text = put_report(&sheet[..n], &mut room);
    give_answer(&rt, input, &sheet, text);
}
