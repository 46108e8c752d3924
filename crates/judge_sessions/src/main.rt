// Judges each trace that an argument names, and prints its verdict, and why. Beside recorded sessions, data/ holds `whole`, a small trace that is accepted; the
// same with a line changed, put in or left out, under the name of the rule that it breaks, or of what is wrong with the line's form; each table of the judge at its
// size and one beyond; and inputs that end within a line or a call, or whose line comes in two reads.
#![tactic(auto)]

use judge_stream::{WordsTo, pump};
use named_files::{Failure, Word, Words, lent, open_named};
use std::io::Write;
use std::rt::Files;

fn one<R: Files>(rt: &R, to: &mut impl Write, err: &mut impl Write, word: Result<Word, Failure>) {
    let Some(mut named) = open_named(rt, err, lent(&word), b"path") else {
        return;
    };
    pump(&mut named.file, to, err, b"", WordsTo::Output);
}

fn main(rt: HostRuntime) {
    for word in Words::of(&rt) {
        one(&rt, &mut rt.stdout(), &mut rt.stderr(), word);
    }
}
