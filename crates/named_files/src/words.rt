// The words behind a program's name, one after the other.
ghost use Rattle.std.specs.Prelude.{◌≡◌, ◌-◌, ◌≤◌, length, Ok, IfSome, IfOk, IfErr};
ghost use Rattle.std.specs.Iterator.{at_most};
ghost use Rattle.arrayvec.specs.ArrayVec.{array_vec_len};
ghost use Rattle.named_files.specs.declared.failures.Failure.TheVariants.{TooLong};

use crate::{Failure, NAME_ROOM};
use arrayvec::ArrayVec;
use std::env::FillError;
use std::ops::Range;
use std::rt::Env;

// As the system has it: it may be no text.
pub type Word = ArrayVec<u8, NAME_ROOM>;

#[derive(Drop)]
pub struct Words<'a, R: Env> {
    rt: &'a R,
    places: Range<usize>,
}

impl<'a, R: Env> Words<'a, R> {
    // The program's name is word 0.
    pub fn of(rt: &'a R) -> Words<'a, R>
        ensures { result.places ≡ record { start = 1; end = usize.MAX } }
    {
        Words {
            rt,
            places: 1..usize::MAX,
        }
    }
}

// Word `i`, where there is one, read into a room of any length: how many bytes it has.
pub fn read_word(rt: &impl Env, i: usize, room: &mut [u8]) -> Option<Result<usize, Failure>>
    ensures within { IfSome result (λ word. IfOk word (λ count. count ≤ length room.new)) }
    ensures room { length room.new ≡ length room.old }
    ensures too_long { IfSome result (λ word. IfErr word (λ failure. failure ≡ TooLong)) }
{
    match rt.arg(i, room) {
        Ok(count) => Some(Ok(count)),
        Err(FillError::TooLong) => Some(Err(Failure::TooLong)),
        Err(FillError::NotPresent) => None,
    }
}

// The same, with a room of its own.
pub fn word<const ROOM: usize>(
    rt: &impl Env,
    i: usize,
) -> Option<Result<ArrayVec<u8, ROOM>, Failure>>
    ensures within { IfSome result (λ word. IfOk word (λ bytes. array_vec_len bytes ≤ ROOM)) }
    ensures too_long { IfSome result (λ word. IfErr word (λ failure. failure ≡ TooLong)) }
{
    let mut word = ArrayVec::from([0; ROOM]);
    match read_word(rt, i, word.as_mut_slice())? {
        Ok(count) => {
            word.truncate(count);
            Some(Ok(word))
        }
        Err(failure) => Some(Err(failure)),
    }
}

// A word as it is lent to be opened.
pub fn lent<const ROOM: usize>(
    word: &Result<ArrayVec<u8, ROOM>, Failure>,
) -> Result<&[u8], &Failure>
    ensures { IfOk result (λ bytes. word.now ≡ Ok record { items = bytes.now }) }
{
    match word {
        Ok(bytes) => Ok(bytes.as_slice()),
        Err(failure) => Err(failure),
    }
}

impl<'a, R: Env> Iterator for Words<'a, R> {
    type Item = Result<Word, Failure>;

    ghost remaining = { λ s. at_most (s.places.end - s.places.start) };

    fn next(&mut self) -> Option<Result<Word, Failure>> {
        let i = self.places.next()?;
        word(self.rt, i)
    }
}
