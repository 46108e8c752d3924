// Prints a summary of each trace that is named, or of standard input: what support looks at first.
#![tactic(auto)]

use named_files::{Failure, Named, Wish, Word, Words, asked_for, lent, open_named, say};
use std::io::Write;
use std::rt::{Env, Files};
use summary_stream::pump;

const HELP: &[u8] =
    b"usage: summary [FILE..]\n\nOne screen on a trace: its answers, the driver lines that failed, the peaks of live and of\nmapped bytes, and what is left at the end. The judge takes each line first: where it takes\none no more, the summary is of the lines before, and the last line says so. Without a file\nit reads standard input; several are read one after the other.\n";

fn one<R: Files>(rt: &R, to: &mut impl Write, err: &mut impl Write, word: Result<Word, Failure>) {
    let Some(Named { mut file, name }) = open_named(rt, err, lent(&word), b"a file's name") else {
        return;
    };
    say(to, b"trace     ");
    say(to, name);
    say(to, b"\n");
    pump(&mut file, to, err);
}

// One after the other, with an empty line between.
fn each<R: Env + Files>(rt: &R, to: &mut impl Write, err: &mut impl Write) {
    for (place, word) in Words::of(rt).enumerate() {
        if 0 < place {
            say(to, b"\n");
        }
        one(rt, to, err, word);
    }
}

fn main(rt: HostRuntime) {
    let mut out = rt.stdout();
    let mut err = rt.stderr();
    let mut input = rt.stdin();
    match asked_for(&rt, &input, &mut err, b"summary") {
        Some(Wish::Help) => say(&mut out, HELP),
        Some(Wish::Input) => pump(&mut input, &mut out, &mut err),
        Some(Wish::Files) => each(&rt, &mut out, &mut err),
        None => {}
    }
}
