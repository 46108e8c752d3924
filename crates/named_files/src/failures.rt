// Why a word or its file can't be had, as the system says it.
ghost use Rattle.std.specs.Prelude.{◌≡◌, ◌≤◌, length, take};

use crate::say;
use arrayvec::ArrayString;
use std::error::Error;
use std::io::Write;
use std::str::Utf8Error;
use std::{fmt, io};

// What the system says is shorter.
const TEXT_ROOM: usize = 320;

#[derive(Debug, Drop)]
pub enum Failure {
    TooLong,
    // The library opens a file by a name that is text alone.
    NoText,
    Unopened(io::Error),
}

impl From<Utf8Error> for Failure {
    fn from(_: Utf8Error) -> Failure {
        Failure::NoText
    }
}

impl From<io::Error> for Failure {
    fn from(error: io::Error) -> Failure {
        Failure::Unopened(error)
    }
}

impl Error for Failure {}

impl fmt::Display for Failure {
    fn fmt<W: fmt::Write>(&self, f: &mut fmt::Formatter<W>) -> fmt::Result {
        match self {
            Failure::TooLong => f.write_str("File name too long"),
            Failure::NoText => f.write_str("the name is not UTF-8"),
            Failure::Unopened(error) => {
                let mut text = ArrayString::<TEXT_ROOM>::new();
                let _ = fmt::Write::write(&mut text, error);
                f.write_str(without_number(text.as_str()))
            }
        }
    }
}

// The library puts the system's number behind an error's text, as in `No such file or directory (os error 2)`.
fn without_number(text: &str) -> &str
    ensures within { length result.now ≤ length text.now }
    ensures front { result.now ≡ take (length result.now) text.now }
{
    match text.rsplit_once(" (") {
        Some((why, _)) => why,
        None => text,
    }
}

// What can't be had goes before it as bytes, since it may be no text.
pub fn say_failure(to: &mut impl Write, what: &[u8], failure: &Failure) {
    let mut why = ArrayString::<TEXT_ROOM>::new();
    let _ = fmt::Write::write(&mut why, failure);
    say(to, what);
    say(to, b": ");
    say(to, why.as_str().as_bytes());
    say(to, b"\n");
}
