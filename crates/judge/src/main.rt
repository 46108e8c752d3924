// Reads a trace and prints the judge's verdict on it, one line on standard output, and why on standard error; of several traces, each with its name.
#![tactic(auto)]

use judge_stream::{WordsTo, pump};
use named_files::{Failure, Named, Wish, Word, Words, asked_for, lent, open_named, say};
use std::io::Write;
use std::rt::{Env, Files};

const HELP: &[u8] =
    b"usage: judge [FILE..]\n\nReads a trace and prints one line on standard output: accepted, rejected or large, the\nnumber of the line, and the number of the rule or of what is too large; and why, in words,\non standard error. Without a file it reads standard input; of several files each line has\nthe file's name before it.\ndocs/TRACES.md says what the rules are, and what to look at.\n";

fn one<R: Files>(
    rt: &R,
    to: &mut impl Write,
    err: &mut impl Write,
    word: Result<Word, Failure>,
    named: bool,
) {
    let Some(Named { mut file, name }) = open_named(rt, err, lent(&word), b"a file's name") else {
        return;
    };
    if named {
        pump(&mut file, to, err, name, WordsTo::Errors);
    } else {
        pump(&mut file, to, err, b"", WordsTo::Errors);
    }
}

fn each<R: Env + Files>(rt: &R, to: &mut impl Write, err: &mut impl Write) {
    let named = Words::of(rt).nth(1).is_some();
    for word in Words::of(rt) {
        one(rt, to, err, word, named);
    }
}

fn main(rt: HostRuntime) {
    let mut out = rt.stdout();
    let mut err = rt.stderr();
    let mut input = rt.stdin();
    match asked_for(&rt, &input, &mut err, b"judge") {
        Some(Wish::Help) => say(&mut out, HELP),
        Some(Wish::Input) => pump(&mut input, &mut out, &mut err, b"", WordsTo::Errors),
        Some(Wish::Files) => each(&rt, &mut out, &mut err),
        None => {}
    }
}
