// The counts of a summary, and one line more in each.
ghost use Rattle.std.specs.Prelude.{◌≡◌, ◌+◌, ◌<◌, ◌^◌};
ghost use Rattle.judge_rules.specs.Said.{said};
ghost use Rattle.summary_counts.specs.Counts.{shown_number, answer_places, answer_place_of, failure_places, failed_by, higher, or_else, counts_of, Few};

use judge_rules::{Call, Said};
use judge_steps::said_of;
use trace::Line;

// The most that an amount was, and the line at which it first was that.
#[derive(Clone, Copy)]
pub struct Peak {
    pub most: u64,
    pub line: u64,
}

impl Peak {
    const NONE: Peak = Peak { most: 0, line: 0 };

    // An amount is reached at a line.
    fn raise(&mut self, amount: u64, line: u64)
        ensures { self.new ≡ higher self.old amount line }
    {
        if self.most < amount {
            *self = Peak { most: amount, line };
        }
    }
}

// How many lines stand at a place of a table, and the number of the first of them, 0 where there is none.
#[derive(Clone, Copy)]
pub struct Times {
    pub count: u64,
    pub first: u64,
}

impl Times {
    const NONE: Times = Times { count: 0, first: 0 };

    // One more.
    fn add(&mut self, line: u64)
        requires { self.old.count + 1 < 2 ^ 64 }
        ensures { self.new ≡ record { count = self.old.count + 1; first = or_else self.old.first line } }
    {
        self.count += 1;
        if self.first == 0 {
            self.first = line;
        }
    }
}

// The counts: the lines so far, the peaks of live bytes and of mapped bytes, the answers by call and number, the failed driver lines by kind.
#[derive(Clone, Copy)]
pub struct Counts {
    pub lines: u64,
    pub live: Peak,
    pub mapped: Peak,
    pub answers: [Times; Counts::ANSWER_PLACES],
    pub failures: [u64; Counts::FAILURE_PLACES],
    ghost few_answers: { Few lines (counts_of answers) },
    ghost few_failures: { Few lines failures },
}

impl Counts {
    // The answer numbers that are counted apart, and those above them, as one.
    pub const OTHER_NUMBER: usize = 20;

    pub const PER_CALL: usize = 21;

    // The place of the lines that are no results, behind those of the four calls.
    // kept: `Tells` says of every line at which place it stands, by `answer_place_of` and by `failed_by`, where it is 0.
    pub const NO_ANSWER: usize = 84;

    pub const ANSWER_PLACES: usize = 85;

    pub const FAILURE_PLACES: usize = 19;
}

impl Counts {
    ghost use Rattle.summary_counts.specs.Promises.{NoneYet, Adds};

    // Before the first line.
    pub(crate) fn new() -> Counts
        ensures { NoneYet result }
    {
        Counts {
            lines: 0,
            live: Peak::NONE,
            mapped: Peak::NONE,
            answers: [Times::NONE; Counts::ANSWER_PLACES],
            failures: [0; Counts::FAILURE_PLACES],
        }
    }

    // A line of a call, behind which so many bytes are live and mapped.
    pub(crate) fn count(&mut self, call: Call, live: u64, mapped: u64, l: Line)
        requires { self.old.lines + 1 < 2 ^ 64 }
        ensures { Adds self.old call live mapped l self.new }
    {
        self.lines += 1;
        let line = self.lines;
        self.live.raise(live, line);
        self.mapped.raise(mapped, line);
        self.answers[answer_place(l.kind, call, l.third)].add(line);
        self.failures[failure_place(l.kind, l.third)] += 1;
    }
}

// An answer number as it is counted.
fn shown_number(n: u64) -> usize
    ensures { result ≡ shown_number n }
{
    if n < 20 {
        n as usize
    } else {
        Counts::OTHER_NUMBER
    }
}

// The place of a line in the table of answers.
fn answer_place(kind: u64, call: Call, number: u64) -> usize
    ensures value { result ≡ answer_place_of (said kind) call number }
    ensures within { result < answer_places }
{
    let Said::Result = said_of(kind) else {
        return Counts::NO_ANSWER;
    };
    let n = shown_number(number);
    match call {
        Call::Open => n,
        Call::Malloc => Counts::PER_CALL + n,
        Call::Free => 2 * Counts::PER_CALL + n,
        Call::Close => 3 * Counts::PER_CALL + n,
    }
}

// The place of a line in the table of failures: its kind, where it is the driver's or a small buffer's.
fn failure_place(kind: u64, code: u64) -> usize
    ensures value { result ≡ failed_by (said kind) kind code }
    ensures within { result < failure_places }
{
    match said_of(kind) {
        Said::Record(_) | Said::Aside if code != 0 => kind as usize,
        _ => 0,
    }
}
