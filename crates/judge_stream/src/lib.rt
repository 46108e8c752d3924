// Reads a trace from a file, chunk by chunk, and prints the judge's verdict on standard output, and why where it is told to. It holds one chunk, a line and the
// judge's tables at a time, whatever the length of the input.
#![tactic(auto)]

mod lines;
mod why;

ghost use Rattle.std.specs.Prelude.{◌+◌, ◌≤◌, ◌<◌, ◌^◌, length};
ghost use Rattle.trace.specs.Bounds.{longest_line};
ghost use Rattle.trace.specs.Put.{Put};
ghost use Rattle.judge_stream.specs.Printed.{verdict_line};
ghost use Rattle.judge_stream.specs.Promises.{most_read, Serves};

use crate::lines::{Head, keep_under_way};
use crate::why::Last;
use arrayvec::ArrayVec;
use judge_chunks::Progress;
use judge_rules::Verdict;
use named_files::say;
use std::io::{Read, Write};
use trace::put_text;

// Where the words of a verdict go.
#[derive(Clone, Copy)]
pub enum WordsTo {
    Output,
    Errors,
}

// The bytes of one read at the most.
const CHUNK: usize = 65536;

// The words of a verdict are shorter.
const TEXT_ROOM: usize = 4096;

// How many bytes a trace may have, 2^63.
const MOST_BYTES: u64 = 0x8000_0000_0000_0000;

fn not_written(err: &mut impl Write) {
    say(err, b"judge: the verdict cannot be written\n");
}

fn not_read(err: &mut impl Write) {
    say(err, b"judge: the trace cannot be read\n");
}

fn too_long(err: &mut impl Write) {
    say(err, b"judge: the trace has 2^63 bytes or more\n");
}

// The line that says the verdict, from a place of the buffer on; the place after it.
// kept: it promises the bytes (`verdict_line`), which a `Display` does not.
fn put_verdict(out: &mut [u8], at: usize, v: Verdict) -> usize
    requires { at + longest_line ≤ length out.old }
    ensures { Put out.old out.new at result (verdict_line v) }
{
    match v {
        Verdict::Accepted => put_text(out, at, b"accepted", 0, 0, 0),
        Verdict::Rejected(line, rule) => put_text(out, at, b"rejected", line, rule, 0),
        Verdict::Large(line, which) => put_text(out, at, b"large", line, which, 0),
    }
}

// A trace's name and what stands between it and what is said of it, where it has one.
fn say_name(to: &mut impl Write, name: &[u8], behind: &[u8]) {
    if !name.is_empty() {
        say(to, name);
        say(to, behind);
    }
}

fn say_verdict(to: &mut impl Write, err: &mut impl Write, name: &[u8], v: Verdict) {
    say_name(to, name, b"\t");
    let mut out = [0u8; TEXT_ROOM];
    let n = put_verdict(&mut out, 0, v);
    if to.write_all(&out[..n]).is_err() {
        not_written(err);
    }
}

// The end of the input. `line` is as much as is kept of the line under way.
fn end(
    to: &mut impl Write,
    err: &mut impl Write,
    words_to: WordsTo,
    name: &[u8],
    p: &mut Progress,
    line: &[u8],
)
    requires { p.old.lines + 2 < 2 ^ 64 }
{
    let last = Last {
        well: p.outcome.is_ok(),
        lines: p.lines,
        line,
    };
    let v = p.finish();
    say_verdict(to, err, name, v);
    let mut out = [0u8; TEXT_ROOM];
    let n = last.put(&mut out, 0, v, &p.state);
    if n == 0 {
        return;
    }
    match words_to {
        WordsTo::Output => say_words(to, name, &out[..n]),
        WordsTo::Errors => say_words(err, name, &out[..n]),
    }
}

fn say_words(to: &mut impl Write, name: &[u8], words: &[u8]) {
    say_name(to, name, b": ");
    say(to, words);
}

// Reads once and judges what came: how many bytes, 0 at the end of the input, or none where the read failed.
fn serve(input: &mut impl Read, p: &mut Progress, head: &mut Head) -> Option<usize>
    requires { p.old.lines + most_read < 2 ^ 64 }
    ensures { Serves result p.old.lines p.new.lines }
{
    let mut buf = [0u8; CHUNK];
    let Ok(n) = input.read(&mut buf) else {
        return None;
    };
    let lines = p.lines;
    let well = p.outcome.is_ok();
    p.feed(&buf[..n]);
    if well {
        let more = p.lines.saturating_sub(lines);
        keep_under_way(head, &buf[..n], more, p.outcome.is_ok());
    }
    Some(n)
}

// From an open file: the verdict to standard output, and the words of why it is not accepted to there or to standard error, each with the name before it,
// where that is not empty.
pub fn pump(
    input: &mut impl Read,
    to: &mut impl Write,
    err: &mut impl Write,
    name: &[u8],
    words_to: WordsTo,
) {
    let mut head: Head = ArrayVec::new();
    let mut p = Progress::new();
    let mut total: u64 = 0;
    // kept: it counts bytes and no turns, and a read gives as many as it likes.
    while total < MOST_BYTES {
        let Some(n) = serve(input, &mut p, &mut head) else {
            not_read(err);
            return;
        };
        if n == 0 {
            end(to, err, words_to, name, &mut p, &head);
            return;
        }
        total += n as u64;
    }
    too_long(err);
}
