// Reads a trace from a file, chunk by chunk, and prints a summary of it on standard output. It holds one chunk, the judge's tables and the summary's at a
// time, whatever the length of the input.
#![tactic(auto)]

ghost use Rattle.std.specs.Prelude.{◌+◌, ◌<◌, ◌^◌};
ghost use Rattle.summary_stream.specs.Promises.{lines};

mod reader;
mod report;

use crate::reader::Reader;
use crate::report::put_screen;
use arrayvec::ArrayString;
use std::fmt;
use std::fmt::Write as _;
use std::io::{Read, Write};

// How many bytes a trace may have, 2^63.
const MOST_BYTES: u64 = 0x8000_0000_0000_0000;

// A screen is far below it: a line for each of at most 84 answers and 128 buffers.
const SCREEN_ROOM: usize = 65536;

// The line that says why no summary is printed is shorter.
const LINE_ROOM: usize = 64;

// Why no summary is printed.
#[derive(Clone, Copy)]
enum Failure {
    NotRead,
    TooLong,
    NotWritten,
}

impl fmt::Display for Failure {
    fn fmt<W: fmt::Write>(&self, f: &mut fmt::Formatter<W>) -> fmt::Result {
        f.write_str(match self {
            Failure::NotRead => "the trace cannot be read",
            Failure::TooLong => "the trace has 2^63 bytes or more",
            Failure::NotWritten => "the summary cannot be written",
        })
    }
}

// In one write, so that no other program's line comes into it.
fn complain(err: &mut impl Write, failure: Failure) {
    let mut line = ArrayString::<LINE_ROOM>::new();
    let _ = writeln!(line, "summary: {failure}");
    let _ = err.write_all(line.as_str().as_bytes());
}

// From an open file to standard output. `err` is standard error.
pub fn pump(input: &mut impl Read, to: &mut impl Write, err: &mut impl Write) {
    if let Err(failure) = summarized(input, to) {
        complain(err, failure);
    }
}

fn summarized(input: &mut impl Read, to: &mut impl Write) -> Result<(), Failure> {
    let mut reader = Reader::new();
    let mut total: u64 = 0;
    // kept: it counts bytes and no turns, and a read gives as many as it likes.
    while total < MOST_BYTES {
        let count = reader.serve(input).map_err(|_| Failure::NotRead)?;
        if count == 0 {
            return written(&mut reader, to);
        }
        total += count as u64;
    }
    Err(Failure::TooLong)
}

// The end of the input. The screen is written at once.
fn written(reader: &mut Reader, to: &mut impl Write) -> Result<(), Failure>
    requires { lines reader.old + 2 < 2 ^ 64 }
{
    reader.finish();
    let mut screen = ArrayString::<SCREEN_ROOM>::new();
    let _ = put_screen(&mut screen, &reader.summary, reader.outcome);
    to.write_all(screen.as_str().as_bytes())
        .map_err(|_| Failure::NotWritten)
}
