// What replay prints for each trace that a word behind the program's name names.
#![tactic(auto)]

use named_files::{Failure, Word, Words, lent, open_named, say};
use replay_stream::Prints;
use std::io::Write;
use std::rt::{Env, Files};

// What goes before the output of each file.
#[derive(Clone, Copy, PartialEq, Eq)]
pub enum Before {
    Nothing,
    Name,
}

fn one<R: Env + Files>(
    rt: &R,
    to: &mut impl Write,
    err: &mut impl Write,
    word: Result<Word, Failure>,
    prints: Prints,
    before: Before,
) {
    let Some(mut named) = open_named(rt, err, lent(&word), b"a file's name") else {
        return;
    };
    if before == Before::Name {
        say(to, named.name);
        say(to, b"\n");
    }
    replay_stream::pump(rt, &mut named.file, to, err, prints);
}

// One after the other.
pub fn pump_each<R: Env + Files>(
    rt: &R,
    to: &mut impl Write,
    err: &mut impl Write,
    prints: Prints,
    before: Before,
) {
    for word in Words::of(rt) {
        one(rt, to, err, word, prints, before);
    }
}
