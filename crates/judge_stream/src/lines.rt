// The bytes of the line under way. They are kept for the words of the verdict alone: the judge reads each byte once and keeps none.
ghost use Rattle.std.specs.Prelude.{◌≤◌, length};

use arrayvec::ArrayVec;

// A byte more than the longest line has, with its line feed: what such a line begins with is enough to tell what is wrong with it.
pub const LINE_ROOM: usize = 74;

pub type Head = ArrayVec<u8, LINE_ROOM>;

// The place behind the last line feed of a chunk, or 0.
fn behind_last(chunk: &[u8]) -> usize
    ensures { result ≤ length chunk.now }
{
    for (i, b) in chunk.iter().enumerate().rev() {
        if *b == b'\n' {
            return i + 1;
        }
    }
    0
}

// The place behind so many line feeds of a chunk, or its end.
// kept: the library has no method for the place behind the n-th of them.
fn behind(chunk: &[u8], feeds: u64) -> usize
    ensures { result ≤ length chunk.now }
{
    let mut left = feeds;
    for (i, b) in chunk.iter().enumerate() {
        if left == 0 {
            return i;
        }
        if *b == b'\n' {
            left -= 1;
        }
    }
    chunk.len()
}

// A line's bytes behind those that are kept of it, as far as there is room.
fn keep(head: &mut Head, bytes: &[u8]) {
    for b in bytes {
        if *b == b'\n' || head.is_full() {
            return;
        }
        head.push(*b);
    }
}

// The line that stands at a place of the chunk. At its start that is the one under way.
fn keep_line(head: &mut Head, chunk: &[u8], from: usize)
    requires { from ≤ length chunk.now }
{
    if from != 0 {
        head.clear();
    }
    keep(head, &chunk[from..]);
}

// A chunk brought the judge on by so many lines, the last of them taken or refused. What is kept then is of the line under way, or of the one that was refused.
pub fn keep_under_way(head: &mut Head, chunk: &[u8], lines: u64, well: bool) {
    if well {
        keep_line(head, chunk, behind_last(chunk));
    } else if lines != 0 {
        keep_line(head, chunk, behind(chunk, lines - 1));
    }
}
