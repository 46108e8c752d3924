// The bytes of a line: where a byte stands, how many tabs there are, and what the tabs part.
ghost use Rattle.std.specs.Prelude.{◌≡◌, ◌≤◌, length};
ghost use Rattle.judge_reasons.specs.Forms.{Byte, FirstFrom, IsTrueOf, tabs, TAB as tab};

use crate::Form;
use crate::parts::{is_decimal, is_word};

pub const TAB: u8 = b'\t';

// How many tabs a line has, between a word and three numbers.
const TABS: usize = 3;

// The first place from `at` on with this byte, or the end.
pub fn find_byte(line: &[u8], at: usize, b: u8) -> usize
    requires { at ≤ length line.now }
    ensures { FirstFrom line.now at b result }
{
    for i in at..line.len() {
        if line[i] == b {
            return i;
        }
    }
    line.len()
}

fn count_tabs(line: &[u8]) -> usize
    ensures { result ≡ tabs (length line.now) line.now }
{
    let mut n: usize = 0;
    for b in line {
        if *b == TAB {
            n += 1;
        }
    }
    n
}

// The first field behind a place, where a tab or the end stands, that is no number.
fn of_numbers(line: &[u8], word: usize) -> Form
    requires { FirstFrom line.now 0 tab word }
    ensures { IsTrueOf line.now result }
{
    let mut at = word;
    // kept: a turn goes to the next tab, where a search finds one.
    while at < line.len() {
        let start = at + 1;
        let end = find_byte(line, start, TAB);
        if !is_decimal(&line[start..end]) {
            return Form::NotANumber(start, end);
        }
        at = end;
    }
    Form::Other
}

// A line of text: its word, how many fields it has, its numbers.
pub fn of_fields(line: &[u8]) -> Form
    ensures { IsTrueOf line.now result }
{
    let word = find_byte(line, 0, TAB);
    if !is_word(&line[..word]) {
        return Form::UnknownWord(word);
    }
    let n = count_tabs(line);
    if n < TABS {
        return Form::TooFewFields(n);
    }
    if TABS < n {
        return Form::TooManyFields(n);
    }
    of_numbers(line, word)
}
