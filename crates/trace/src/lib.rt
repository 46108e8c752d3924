// The text of a trace: a line in, a line out.
#![tactic(auto)]

ghost use Rattle.std.specs.Prelude.{◌≡◌, ◌∷◌, [], ◌+◌, ◌*◌, ◌==◌, fold, position, take_while, ◌≤◌, ◌<◌, length, drop};
ghost use Rattle.std.specs.Int.{from_be_bytes, w128};
ghost use Rattle.trace.specs.Form.{word, decimal, text, printed, bad_line, short_line, ReadAs};
ghost use Rattle.trace.specs.Bounds.{longest_field, longest_with, longest_line};
ghost use Rattle.trace.specs.Reads.{reading};
ghost use Rattle.trace.specs.Machine.{kind_of, known, fitting, after_letters, after_tab, after_digits, parted, after, line_at, is_fresh, fresh as nothing_read};
ghost use Rattle.trace.specs.Chunks.{reached};
ghost use Rattle.trace.specs.Put.{Put};

// A line of a trace: the number of its word, and its three numbers.
// kept: a kind is a number, since the definitions speak of every number there (`printed`, `lines_of-printed`), and a log has the same ones.
#[repr(C)]
#[derive(Clone, Copy)]
pub struct Line {
    pub kind: u64,
    pub first: u64,
    pub second: u64,
    pub third: u64,
}

// What is read where a line should stand.
// kept: docs/RULES.md 6.4 has a word for what is no line, and `None` would say less: the judge and replay answer a malformed line, and do not pass it over.
#[derive(Clone, Copy)]
pub enum Reading {
    Good(Line),
    Malformed,
}

// What stands before the number that is being read: the kind, then the numbers so far.
#[derive(Clone, Copy)]
pub enum Before {
    Kind(u64),
    First(u64, u64),
    Second(u64, u64, u64),
}

// What is known of a line of which a part is read: the letters of its word so far, as a number in base 256; a tab; the digits of a number so far.
#[derive(Clone, Copy)]
pub enum Partial {
    Letters(u128),
    Tab(Before),
    Digits(Before, u64),
    Broken,
}

// How far a line goes in a chunk of the input: the place after what was read, and whether its line feed was met.
// kept: the part that is read is there either way, so the flag has no value of its own beside it.
#[derive(Clone, Copy)]
pub struct Reach {
    pub at: usize,
    pub partial: Partial,
    pub ended: bool,
}

const TAB: u8 = b'\t';

// What the letters of a word stay below that is not full: no word has more than sixteen.
const FULL: u128 = 1 << 120;

// The words, from kind 1 on, each behind as many zeros as make sixteen bytes: a number in base 256 whose digits are its letters.
static WORDS: [[u8; 16]; Line::LAST as usize] = [
    *b"\0\0\0\0\0\0\0\0\0reserve",
    *b"\0\0\0\0\0\0\0\0\0\0create",
    *b"\0\0\0\0\0\0\0\0\0\0\0\0\0map",
    *b"\0\0\0\0\0\0\0\0\0\0access",
    *b"\0\0\0\0\0\0\0\0\0\0\0unmap",
    *b"\0\0\0\0\0\0\0\0\0release",
    *b"\0\0\0\0\0\0\0\0\0\0record",
    *b"\0\0\0\0\0\0\0\0\0\0\0asked",
    *b"\0\0\0\0\0\0\0\0\0\0\0\0wait",
    *b"\0\0\0\0\0\0\0\0\0\0\0\0sync",
    *b"\0\0\0\0\0\0\0\0giveback",
    *b"\0\0\0\0\0\0\0\0\0\0\0\0open",
    *b"\0\0\0\0\0\0\0\0\0\0malloc",
    *b"\0\0\0\0\0\0\0\0\0\0\0\0free",
    *b"\0\0\0\0\0\0\0\0\0\0\0close",
    *b"\0\0\0\0\0\0\0\0\0\0result",
    *b"\0\0\0\0\0\0\0\0\0\0\0small",
    *b"\0\0\0\0\0\0\0dropsmall",
];

// Which of them has these letters.
fn place_of(letters: u128) -> Option<usize>
    ensures { result ≡ position (λ row. letters == from_be_bytes w128 row) WORDS }
{
    WORDS
        .iter()
        .position(|row| letters == u128::from_be_bytes(*row))
}

// The kind of the word whose letters these are.
fn kind_of(letters: u128) -> Option<u64>
    ensures { result ≡ known (kind_of letters) }
{
    let place = place_of(letters)?;
    Some(place as u64 + 1)
}

// How many zeros stand in front.
fn zeros(row: &[u8]) -> usize
    ensures { result ≡ length (take_while (λ b. b == 0) row.now) }
{
    row.iter().take_while(|b| **b == 0).count()
}

// The letters of a kind's word; a number that is no kind has none.
#[tactic(auto, using(crate::proofs::Words::no_word), unfolding(crate::specs::Form::word))]
fn word(kind: u64) -> &'static [u8]
    ensures { result.now ≡ word kind }
{
    if kind == 0 {
        return b"";
    }
    if Line::LAST < kind {
        return b"";
    }
    let row = &WORDS[kind as usize - 1];
    &row[zeros(row)..]
}

fn after_letters(letters: u128, b: u8) -> Partial
    ensures { result ≡ after_letters letters b }
{
    match b {
        TAB => match kind_of(letters) {
            Some(kind) => Partial::Tab(Before::Kind(kind)),
            None => Partial::Broken,
        },
        b'a'..=b'z' if letters < FULL => Partial::Letters(letters * 256 + u128::from(b)),
        _ => Partial::Broken,
    }
}

fn after_tab(before: Before, b: u8) -> Partial
    ensures { result ≡ after_tab before b }
{
    match b {
        b'0'..=b'9' => Partial::Digits(before, u64::from(b - b'0')),
        _ => Partial::Broken,
    }
}

// A tab after a number.
fn part(before: Before, n: u64) -> Partial
    ensures { result ≡ parted before n }
{
    match before {
        Before::Kind(kind) => Partial::Tab(Before::First(kind, n)),
        Before::First(kind, first) => Partial::Tab(Before::Second(kind, first, n)),
        Before::Second(..) => Partial::Broken,
    }
}

// One digit more, where the number still fits.
fn append(n: u64, digit: u8) -> Option<u64>
    ensures { result ≡ fitting (n * 10 + digit) }
{
    n.checked_mul(10)?.checked_add(u64::from(digit))
}

fn after_digits(before: Before, n: u64, b: u8) -> Partial
    ensures { result ≡ after_digits before n b }
{
    match b {
        TAB => part(before, n),
        // no digit follows a 0 that leads
        b'0'..=b'9' if n != 0 => match append(n, b - b'0') {
            Some(more) => Partial::Digits(before, more),
            None => Partial::Broken,
        },
        _ => Partial::Broken,
    }
}

impl Partial {
    // Before the first byte of a line.
    pub fn fresh() -> Self
        ensures { result ≡ nothing_read }
    {
        Partial::Letters(0)
    }

    // One byte more, which is no line feed.
    pub fn step(self, b: u8) -> Self
        ensures { result ≡ after self b }
    {
        match self {
            Partial::Letters(letters) => after_letters(letters, b),
            Partial::Tab(before) => after_tab(before, b),
            Partial::Digits(before, n) => after_digits(before, n, b),
            Partial::Broken => Partial::Broken,
        }
    }

    // So many bytes more, none of them a line feed.
    fn through(self, bytes: &[u8]) -> Self
        ensures { result ≡ fold after self bytes.now }
    {
        bytes.iter().fold(self, |partial, b| partial.step(*b))
    }

    // What the line says, where it ends here.
    pub fn finish(self) -> Reading
        ensures { result ≡ line_at self }
    {
        match self {
            Partial::Digits(Before::Second(kind, first, second), third) => Reading::Good(Line {
                kind,
                first,
                second,
                third,
            }),
            _ => Reading::Malformed,
        }
    }

    // Whether no byte of the line is read: at the end of the input there is no such line.
    pub fn is_fresh(self) -> bool
        ensures { result ≡ is_fresh self }
    {
        matches!(self, Partial::Letters(0))
    }

    // Reads on from a place of a chunk, up to past the next line feed or to the end of the chunk.
    pub fn scan(self, chunk: &[u8], at: usize) -> Reach
        requires { at ≤ length chunk.now }
        ensures { result ≡ reached at self (drop at chunk.now) }
    {
        let rest = &chunk[at..];
        let mut partial = self;
        for (passed, b) in rest.iter().enumerate() {
            if *b == b'\n' {
                return Reach {
                    at: at + passed + 1,
                    partial,
                    ended: true,
                };
            }
            partial = partial.step(*b);
        }
        Reach {
            at: chunk.len(),
            partial,
            ended: false,
        }
    }
}

// kept: a buffer and the place in it are two arguments, since a struct of both would say `Put` of the same values in each clause.
pub fn put_byte(out: &mut [u8], at: usize, b: u8) -> usize
    requires { at < length out.old }
    ensures { Put out.old out.new at result (b ∷ []) }
{
    out[at] = b;
    at + 1
}

pub fn put_bytes(out: &mut [u8], at: usize, bytes: &[u8]) -> usize
    requires { at + length bytes.now ≤ length out.old }
    ensures { Put out.old out.new at result bytes.now }
{
    let end = at + bytes.len();
    out[at..end].copy_from_slice(bytes);
    end
}

fn digit(d: u64) -> u8
    requires { d < 10 }
    ensures { result ≡ 48 + d }
{
    b'0' + d as u8
}

// kept: std's `Display` of a number writes to what may refuse a byte, and this cannot fail.
pub fn put_decimal(out: &mut [u8], at: usize, n: u64) -> usize
    requires { at + length (decimal n) ≤ length out.old }
    ensures { Put out.old out.new at result (decimal n) }
{
    if n < 10 {
        return put_byte(out, at, digit(n));
    }
    let next = put_decimal(out, at, n / 10);
    put_byte(out, next, digit(n % 10))
}

// A tab and a number.
pub fn put_field(out: &mut [u8], at: usize, n: u64) -> usize
    requires { at + longest_field ≤ length out.old }
    ensures { Put out.old out.new at result (9 ∷ decimal n) }
{
    let next = put_byte(out, at, TAB);
    put_decimal(out, next, n)
}

// A word, three numbers and a line feed, from a place of the buffer on; the place after them.
pub fn put_text(
    out: &mut [u8],
    at: usize,
    letters: &[u8],
    first: u64,
    second: u64,
    third: u64,
) -> usize
    requires { at + longest_with (length letters.now) ≤ length out.old }
    ensures { Put out.old out.new at result
        (text letters.now first second third) }
{
    let p = put_bytes(out, at, letters);
    let q = put_field(out, p, first);
    let r = put_field(out, q, second);
    let s = put_field(out, r, third);
    put_byte(out, s, b'\n')
}

// The line that says where a malformed line stands.
// kept: each is a call of `put_text`, which they have in common, and promises a line of its own.
pub fn put_bad(out: &mut [u8], at: usize, line: u64) -> usize
    requires { at + longest_line ≤ length out.old }
    ensures { Put out.old out.new at result (bad_line line) }
{
    put_text(out, at, b"bad", line, 0, 0)
}

// The line that stands in the place of a call whose answers ran out.
pub fn put_short(out: &mut [u8], at: usize, line: u64) -> usize
    requires { at + longest_line ≤ length out.old }
    ensures { Put out.old out.new at result (short_line line) }
{
    put_text(out, at, b"short", line, 0, 0)
}

impl Line {
    // The driver's words, by the numbers that they have in a log.
    pub const RESERVE: u64 = 1;

    pub const CREATE: u64 = 2;

    pub const MAP: u64 = 3;

    pub const ACCESS: u64 = 4;

    pub const UNMAP: u64 = 5;

    pub const RELEASE: u64 = 6;

    pub const RECORD: u64 = 7;

    pub const ASKED: u64 = 8;

    pub const WAIT: u64 = 9;

    pub const SYNC: u64 = 10;

    pub const GIVEBACK: u64 = 11;

    // The calls, and what follows each.
    pub const OPEN: u64 = 12;

    pub const MALLOC: u64 = 13;

    pub const FREE: u64 = 14;

    pub const CLOSE: u64 = 15;

    pub const RESULT: u64 = 16;

    // What stands between calls: a small buffer that came from the driver, or went back to it.
    pub const SMALL: u64 = 17;

    pub const DROPSMALL: u64 = 18;

    pub const LAST: u64 = Line::DROPSMALL;

    // A whole line, without its line feed.
    pub fn read(bytes: &[u8]) -> Reading
        ensures value { result ≡ reading bytes.now }
        ensures read_as { ReadAs bytes.now result }
    {
        Partial::fresh().through(bytes).finish()
    }

    // The line with its line feed, from a place of the buffer on; the place after it.
    pub fn put(self, out: &mut [u8], at: usize) -> usize
        requires { at + longest_line ≤ length out.old }
        ensures puts { Put out.old out.new at result (printed self) }
        ensures within { result ≤ at + longest_line }
    {
        let word = word(self.kind);
        put_text(out, at, word, self.first, self.second, self.third)
    }
}
