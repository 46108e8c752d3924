// What is wrong with the form of a malformed line, the likeliest mistakes first.
ghost use Rattle.std.specs.Prelude.{◌≡◌, true, ◌≤◌, ◌<◌, length, get_or};
ghost use Rattle.judge_reasons.specs.Forms.{Unprinted, IsTrueOf};

use crate::Form;
use crate::fields::{TAB, find_byte, of_fields};

// With the line feed.
const LONGEST_LINE: usize = 73;

fn is_unprinted(b: u8) -> bool
    ensures { result ≡ true → Unprinted b }
{
    b != TAB && (b < b' ' || b'~' < b)
}

// The place of a byte that is no text, or the end.
fn find_unprinted(line: &[u8]) -> usize
    ensures { result < length line.now → Unprinted (get_or line.now result 0) }
{
    for (i, b) in line.iter().enumerate() {
        if is_unprinted(*b) {
            return i;
        }
    }
    line.len()
}

// A line that is no other kind of file's.
fn of_text(line: &[u8]) -> Form
    ensures { IsTrueOf line.now result }
{
    let odd = find_unprinted(line);
    if odd < line.len() {
        return Form::NotText(odd);
    }
    let space = find_byte(line, 0, b' ');
    let tab = find_byte(line, 0, TAB);
    if space < line.len() && line.len() <= tab {
        return Form::Spaces(space);
    }
    of_fields(line)
}

// A byte order mark, or the first bytes of a file that gzip made.
#[tactic(auto, unfolding(crate::specs::Forms::IsTrueOf))]
fn of_start(line: &[u8]) -> Form
    ensures { IsTrueOf line.now result }
{
    match line {
        [0xef, 0xbb, 0xbf, ..] => Form::ByteOrderMark,
        [0x1f, 0x8b, ..] => Form::Compressed,
        _ => Form::Other,
    }
}

// Of a line's bytes without the line feed. What is said of more bytes than a line can have is true of every line that begins with them.
pub fn form_of(line: &[u8]) -> Form
    ensures { IsTrueOf line.now result }
{
    let start = of_start(line);
    let Form::Other = start else {
        return start;
    };
    let n = line.len();
    if n == 0 {
        return Form::Empty;
    }
    if LONGEST_LINE < n {
        return Form::TooLong;
    }
    if line[n - 1] == b'\r' {
        return Form::CarriageReturn;
    }
    of_text(line)
}
