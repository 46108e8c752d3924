// Where replay stands between two calls: the line that is being read, and the call that waits for its answers.
#![tactic(auto)]

ghost use Rattle.std.specs.Prelude.{◌≡◌, ◌+◌, ◌-◌, ◌*◌, ◌<◌, ◌≤◌, ◌^◌, length};
ghost use Rattle.trace.specs.Bounds.{longest_line};
ghost use Rattle.replay_answers.specs.Promises.{KEPT};
ghost use Rattle.replay_waiting.specs.Places.{first_place, waiting_at, reading_at, is_ended, Stands};
ghost use Rattle.replay_waiting.specs.Promises.{reading, Stops, Begins, Meets, GoesOn, Advances};

use replay_answers::{Stop, gather};
use trace::{Line, Partial, Reading, put_bad};

// A call that waits for its answers, and the number of its line.
#[derive(Clone, Copy)]
pub struct Pending {
    pub call: Line,
    pub number: u64,
}

// What is read of line `line`; the call that waits, if there is one, and how many answers are lent to it; whether the run is over.
// kept: the answers lie in a buffer of the caller's, since a place is copied at each turn, and they are 32 KB.
#[derive(Clone, Copy)]
pub struct Place {
    pub partial: Partial,
    pub line: u64,
    pub pending: Option<Pending>,
    pub count: usize,
    // kept: a run that is over has read a line and lent answers all the same.
    pub over: bool,
}

// How far the chunk is read and the buffer filled. If the waiting call is due, it is run with `count` answers, and what follows goes on from `place`.
#[derive(Clone, Copy)]
pub struct Advanced {
    pub at: usize,
    pub filled: usize,
    pub due: Option<Pending>,
    pub count: usize,
    pub place: Place,
}

impl Advanced {
    // Nothing is printed, and no call is due.
    fn reading(at: usize, count: usize, place: Place) -> Self
        ensures { result ≡ reading at count place }
    {
        Advanced {
            at,
            filled: 0,
            due: None,
            count,
            place,
        }
    }
}

impl Place {
    // Before the first line.
    pub fn first() -> Self
        ensures { result ≡ first_place }
    {
        Place {
            partial: Partial::fresh(),
            line: 1,
            pending: None,
            count: 0,
            over: false,
        }
    }

    // The call waits for its answers.
    fn waiting(call: Line, number: u64) -> Self
        requires { number + 1 < 2 ^ 64 }
        ensures { result ≡ waiting_at call number }
    {
        Place {
            partial: Partial::fresh(),
            line: number + 1,
            pending: Some(Pending { call, number }),
            count: 0,
            over: false,
        }
    }

    // Whether no byte of a line is left to be taken account of.
    pub fn is_ended(self) -> bool
        ensures { result ≡ is_ended self }
    {
        self.over || self.partial.is_fresh()
    }

    // The same call waits, while line `line` is being read.
    fn reading(self, partial: Partial, line: u64, count: usize) -> Self
        ensures { result ≡ reading_at self partial line count }
    {
        Place {
            partial,
            line,
            count,
            ..self
        }
    }
}

// A malformed line, or an open that is not the first, ends the run.
fn stop_at(at: usize, line: u64, count: usize, out: &mut [u8]) -> Advanced
    requires { longest_line ≤ length out.old }
    ensures { Stops at line count out.old out.new result }
{
    let filled = put_bad(out, 0, line);
    Advanced {
        at,
        filled,
        due: None,
        count,
        place: Place {
            partial: Partial::fresh(),
            line,
            pending: None,
            count,
            over: true,
        },
    }
}

// The first line, which must be an open.
fn begin(s: Place, chunk: &[u8], at: usize, out: &mut [u8]) -> Advanced
    requires { (at < length chunk.now) × (Stands s × (longest_line ≤ length out.old)) }
    ensures { Begins s chunk.now at out.new result }
{
    let r = s.partial.scan(chunk, at);
    if !r.ended {
        return Advanced::reading(r.at, s.count, s.reading(r.partial, s.line, s.count));
    }
    match r.partial.finish() {
        Reading::Good(l) if l.kind == Line::OPEN => {
            Advanced::reading(r.at, 0, Place::waiting(l, 1))
        }
        _ => stop_at(r.at, 1, s.count, out),
    }
}

// A call line: the waiting call is due, and this one waits.
fn meet(pending: Pending, l: Line, at: usize, line: u64, count: usize, out: &mut [u8]) -> Advanced
    requires { (longest_line ≤ length out.old) × (line + 1 < 2 ^ 64) }
    ensures { Meets pending l at line count out.old out.new result }
{
    if l.kind == Line::OPEN {
        return stop_at(at, line, count, out);
    }
    Advanced {
        at,
        filled: 0,
        due: Some(pending),
        count,
        place: Place::waiting(l, line),
    }
}

// The lines up to the next call, while one waits.
fn go_on(
    s: Place,
    pending: Pending,
    chunk: &[u8],
    at: usize,
    answers: &mut [u64],
    out: &mut [u8],
) -> Advanced
    requires at_in_bounds { (at < length chunk.now) × (s.line + (length chunk.now - at) < 2 ^ 64) }
    requires stands { Stands s × ((length answers.old ≡ 2 * KEPT) × (longest_line ≤ length out.old)) }
    ensures { GoesOn s pending chunk.now at
        answers.old answers.new out.new result }
{
    let g = gather(s.partial, s.line, chunk, at, answers, s.count);
    match g.stop {
        Stop::More => Advanced::reading(g.at, g.count, s.reading(g.partial, g.line, g.count)),
        Stop::Call(l) => meet(pending, l, g.at, g.line, g.count, out),
        Stop::Malformed => stop_at(g.at, g.line, g.count, out),
    }
}

// Reads on in a chunk, up to the call line at which the waiting call is due, or to the end of the chunk.
pub fn advance(s: Place, chunk: &[u8], at: usize, answers: &mut [u64], out: &mut [u8]) -> Advanced
    requires at_in_bounds { (at < length chunk.now) × (s.line + (length chunk.now - at) < 2 ^ 64) }
    requires stands { Stands s × ((length answers.old ≡ 2 * KEPT) × (longest_line ≤ length out.old)) }
    ensures { Advances s chunk.now at
        answers.old answers.new out.new result }
{
    if s.over {
        return Advanced::reading(chunk.len(), s.count, s);
    }
    match s.pending {
        Some(pending) => go_on(s, pending, chunk, at, answers, out),
        None => begin(s, chunk, at, out),
    }
}
