// What the words behind a program's name ask for: help, files to read, or standard input. A word that begins with `-` and is not `--help` is refused, so
// that nothing is said of another input than was meant.
#![tactic(auto)]

mod failures;
mod words;

ghost use Rattle.std.specs.Prelude.{◌≡◌, IfSome, IsOkAnd};

pub use crate::failures::Failure;
use crate::failures::say_failure;
pub use crate::words::{Word, Words, lent, read_word, word};
use std::fs::File;
use std::io::{IsTerminal, Write};
use std::rt::{Env, Files};

// The longest name of a file that the system takes.
pub const NAME_ROOM: usize = 4096;

#[derive(Clone, Copy, PartialEq, Eq)]
pub enum Wish {
    Help,
    Input,
    Files,
}

fn refuse(to: &mut impl Write, program: &[u8], word: &[u8]) {
    say(to, program);
    say(to, b": it has no option ");
    say(to, word);
    say(to, b": --help says what it takes\n");
}

// What can't be written is passed over.
pub fn say(to: &mut impl Write, text: &[u8]) {
    let _ = to.write_all(text);
}

// Somebody at a terminal would else wait for a program that waits for him.
fn say_what_it_waits_for(input: &impl IsTerminal, to: &mut impl Write, program: &[u8]) {
    if input.is_terminal() {
        say(to, program);
        say(
            to,
            b": waits for a trace on standard input, which Ctrl-D ends\n",
        );
    }
}

// The first word that is no file's name decides. None: it is refused, and that is said.
pub fn asked_for(
    rt: &impl Env,
    input: &impl IsTerminal,
    to: &mut impl Write,
    program: &[u8],
) -> Option<Wish> {
    let mut wish = Wish::Input;
    for word in Words::of(rt) {
        let word = match word {
            Ok(word) => word,
            Err(failure) => {
                say_failure(to, program, &failure);
                return None;
            }
        };
        match word.as_slice() {
            b"--help" => return Some(Wish::Help),
            [b'-', ..] => {
                refuse(to, program, word.as_slice());
                return None;
            }
            _ => wish = Wish::Files,
        }
    }
    if wish == Wish::Input {
        say_what_it_waits_for(input, to, program);
    }
    Some(wish)
}

// A file, and the word that names it.
#[derive(Drop)]
pub struct Named<'a, F: Drop> {
    pub file: F,
    pub name: &'a [u8],
}

// The file that a word names, where it can be opened; else that is told, of a word that can't be had as of what it is `called`.
pub fn open_named<'a, R: Files>(
    rt: &R,
    to: &mut impl Write,
    word: Result<&'a [u8], &Failure>,
    called: &[u8],
) -> Option<Named<'a, R::File>>
    ensures { IfSome result (λ named. IsOkAnd word.entry (λ name. named.name.now ≡ name.now)) }
{
    let name = match word {
        Ok(name) => name,
        Err(failure) => {
            say_failure(to, called, failure);
            return None;
        }
    };
    match opened(rt, name) {
        Ok(file) => Some(Named { file, name }),
        Err(failure) => {
            say_failure(to, name, &failure);
            None
        }
    }
}

fn opened<R: Files>(rt: &R, name: &[u8]) -> Result<R::File, Failure> {
    let path = str::from_utf8(name)?;
    Ok(File::open(rt, path)?)
}
