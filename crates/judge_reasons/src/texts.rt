// The line of text that tells why a verdict is what it is, in a buffer. Each function answers the place behind what it wrote, which is at most 200 bytes.
ghost use Rattle.std.specs.Prelude.{◌+◌, ◌≤◌, length};
ghost use Rattle.judge_reasons.specs.Texts.{most_text};

use crate::{Form, Reason, Words};
use arrayvec::ArrayString;
use std::fmt::Write;
use trace::put_bytes;

// The longest, of a buffer freed with another stream, has 169 bytes.
const ROOM: usize = 200;

fn put_words(out: &mut [u8], at: usize, words: Words) -> usize
    requires { at + most_text ≤ length out.old }
    ensures { result ≤ at + most_text }
{
    let mut text = ArrayString::<ROOM>::new();
    let _ = writeln!(text, "{words}");
    put_bytes(out, at, text.as_str().as_bytes())
}

// A line is missing behind the last one: that of the open, or the result of a call.
pub fn put_empty(out: &mut [u8], at: usize) -> usize
    requires { at + most_text ≤ length out.old }
    ensures { result ≤ at + most_text }
{
    put_words(out, at, Words::Empty)
}

pub fn put_within(out: &mut [u8], at: usize) -> usize
    requires { at + most_text ≤ length out.old }
    ensures { result ≤ at + most_text }
{
    put_words(out, at, Words::Within)
}

// A malformed line's number, and what is wrong with it.
pub fn put_form(out: &mut [u8], at: usize, line: u64, form: Form) -> usize
    requires { at + most_text ≤ length out.old }
    ensures { result ≤ at + most_text }
{
    put_words(out, at, Words::Malformed(line, form))
}

// A rejected line's number, its rule and the reason.
pub fn put_reason(out: &mut [u8], at: usize, line: u64, rule: u64, reason: Reason) -> usize
    requires { at + most_text ≤ length out.old }
    ensures { result ≤ at + most_text }
{
    put_words(out, at, Words::Broken(line, rule, reason))
}

// The number of a line that is too much, and what there is too much of.
pub fn put_large(out: &mut [u8], at: usize, line: u64, which: u64) -> usize
    requires { at + most_text ≤ length out.old }
    ensures { result ≤ at + most_text }
{
    put_words(out, at, Words::Beyond(line, which))
}
