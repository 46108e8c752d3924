// Reads a trace from a file, chunk by chunk, and prints on standard output what replay prints for it, or the same with the pool's tables after each result. It holds
// one chunk of the input, the answers of one call and its log at a time, whatever the length of the input.
#![tactic(auto)]

mod run;

ghost use Rattle.std.specs.Prelude.{◌+◌, ◌≤◌};

use crate::run::Run;
use arrayvec::ArrayString;
use named_files::{NAME_ROOM, say};
use std::fmt;
use std::fmt::Write as _;
use std::io::{Read, Write};
use std::rt::Env;

// What is printed: the trace alone, or after each result the pool's tables too.
#[derive(Clone, Copy, PartialEq, Eq)]
pub enum Prints {
    Trace,
    Tables,
}

// Why a run ends before its input does.
// kept: each program ends for reasons of its own and says them in its own words.
#[derive(Clone, Copy)]
enum Failure {
    NotRead,
    NotWritten,
}

impl fmt::Display for Failure {
    fn fmt<W: fmt::Write>(&self, f: &mut fmt::Formatter<W>) -> fmt::Result {
        f.write_str(match self {
            Failure::NotRead => "the trace cannot be read",
            Failure::NotWritten => "standard output cannot be written",
        })
    }
}

// How many bytes a trace may have, 2^63.
const MOST_BYTES: u64 = 0x8000_0000_0000_0000;

// Why a run ends is shorter.
const TEXT_ROOM: usize = 64;

// To standard error, by the name that the program was called by. The rest of the line is one write, so that no other program's line comes into it.
fn complain(rt: &impl Env, err: &mut impl Write, failure: Failure) {
    let mut name = [0u8; NAME_ROOM];
    if let Ok(n) = rt.arg(0, &mut name) {
        say(err, &name[..n]);
    }
    let mut why = ArrayString::<TEXT_ROOM>::new();
    let _ = writeln!(why, ": {failure}");
    say(err, why.as_str().as_bytes());
}

// From an open file to standard output. `err` is standard error.
pub fn pump(
    rt: &impl Env,
    input: &mut impl Read,
    to: &mut impl Write,
    err: &mut impl Write,
    prints: Prints,
) {
    if let Err(failure) = printed(input, to, prints) {
        complain(rt, err, failure);
    }
}

fn printed(input: &mut impl Read, to: &mut impl Write, prints: Prints) -> Result<(), Failure> {
    let mut run = Run::new();
    let mut total: u64 = 0;
    // kept: it counts bytes and no turns, and a read gives as many as it likes.
    while total < MOST_BYTES {
        let count = run.serve(input, to, prints)?;
        if count == 0 || run.is_over() {
            break;
        }
        total += count as u64;
    }
    Ok(())
}
