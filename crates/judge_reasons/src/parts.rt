// Whether bytes are a trace's word, and whether they are a number: asked of trace's own reader, by a line that has nothing else wrong.
ghost use Rattle.std.specs.Prelude.{◌≡◌, false};
ghost use Rattle.judge_reasons.specs.Forms.{NoWord, NoDecimal};

use trace::{Line, Reading, put_bytes};

const LONGEST_WORD: usize = 9;

// Of the largest number, 2^64 - 1.
const MOST_DIGITS: usize = 20;

fn is_good(r: Reading) -> bool
    ensures { result ≡ false → r ≡ Reading.Malformed }
{
    matches!(r, Reading::Good(_))
}

pub fn is_word(w: &[u8]) -> bool
    ensures { result ≡ false → NoWord w.now }
{
    if LONGEST_WORD < w.len() {
        return false;
    }
    let mut line = [0u8; 16];
    let p = put_bytes(&mut line, 0, w);
    let q = put_bytes(&mut line, p, b"\t0\t0\t0");
    is_good(Line::read(&line[..q]))
}

pub fn is_decimal(w: &[u8]) -> bool
    ensures { result ≡ false → NoDecimal w.now }
{
    if MOST_DIGITS < w.len() {
        return false;
    }
    let mut line = [0u8; 32];
    let p = put_bytes(&mut line, 0, b"map\t");
    let q = put_bytes(&mut line, p, w);
    let r = put_bytes(&mut line, q, b"\t0\t0");
    is_good(Line::read(&line[..r]))
}
