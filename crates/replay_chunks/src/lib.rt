// Replay over bytes: a trace comes in chunks, and its own trace goes out. A turn runs at most one call.
#![tactic(auto)]

ghost use Rattle.std.specs.Prelude.{◌≡◌, ◌+◌, ◌-◌, ◌*◌, ◌<◌, ◌≤◌, ◌^◌, length};
ghost use Rattle.tables.specs.Bounds.{LOG};
ghost use Rattle.tables.specs.Values.{closed_pool};
ghost use Rattle.replay_answers.specs.Promises.{KEPT};
ghost use Rattle.replay_lines.specs.Traced.{longest_call};
ghost use Rattle.replay_waiting.specs.Places.{Stands};
ghost use Rattle.replay_chunks.specs.Promises.{Buffers, Runs, RunsDue, Turned, Lasts};

use calls::{Called, Pool};
use replay_lines::{is_short, put_call};
use replay_waiting::{Pending, Place, advance};
use trace::{Line, put_short};
use words::Address;

// The longest line: a word of nine letters, three tabs, three numbers of twenty digits, a line feed.
pub const LONGEST_LINE: usize = 73;

// Room for the answers of a call.
pub fn answers_buffer() -> [u64; 2 * replay_answers::KEPT]
    ensures { length result ≡ 2 * KEPT }
{
    [0; 2 * replay_answers::KEPT]
}

// Room for its log.
pub fn log_buffer() -> [u64; 4 * Pool::LOG]
    ensures { length result ≡ 4 * LOG }
{
    [0; 4 * Pool::LOG]
}

// Room for its text: its own line, those of a full log, and its result.
pub fn text_buffer() -> [u8; (Pool::LOG + 2) * LONGEST_LINE]
    ensures { length result ≡ longest_call }
{
    [0; (Pool::LOG + 2) * LONGEST_LINE]
}

// Before the first call.
pub fn closed() -> Pool
    ensures { result.value ≡ closed_pool }
{
    let value = tables::Pool::closed();
    Pool { value }
}

// The call that a line names (docs/RULES.md 7.3).
fn run(pool: Pool, call: Line, answers: &[u64], log: &mut [u64]) -> Called
    requires { length log.old ≡ 4 * LOG }
    ensures { Runs pool call answers.now log.old result log.new }
{
    match call.kind {
        Line::OPEN => Pool::open(call.first, 0, call.second, call.third, 0, answers, log),
        Line::MALLOC => pool.malloc(call.first, call.second, answers, log),
        Line::FREE => pool.free(Address(call.first), answers, log),
        _ => pool.close(answers, log),
    }
}

// What a call that was due left: the pool, how much of the buffer is filled, and whether it has a result.
// kept: what is filled is there with a result or without one, so the flag has no value of its own beside it.
#[derive(Clone, Copy)]
pub struct Ran {
    pub pool: Pool,
    pub filled: usize,
    pub shown: bool,
}

// docs/RULES.md 7.5: `short` in the place of a call answered 17.
fn run_due(pool: Pool, due: Pending, answers: &[u64], log: &mut [u64], out: &mut [u8]) -> Ran
    requires { (length log.old ≡ 4 * LOG) × (longest_call ≤ length out.old) }
    ensures { RunsDue pool due.call due.number answers.now out.new result }
{
    let called = run(pool, due.call, answers, log);
    let outcome = called.outcome;
    if is_short(outcome) {
        return Ran {
            pool: called.pool,
            filled: put_short(out, 0, due.number),
            shown: false,
        };
    }
    Ran {
        pool: called.pool,
        filled: put_call(due.call, outcome, log, called.records, out),
        shown: true,
    }
}

// What a turn did: how far the chunk is read and the buffer filled; after a result, what is shown of the pool comes next.
#[derive(Clone, Copy)]
pub struct Step {
    pub pool: Pool,
    pub place: Place,
    pub at: usize,
    pub filled: usize,
    pub shown: bool,
}

// Reads on in a chunk, up to its end or to the next call line, where the waiting call is run.
// kept: `turn` and `last` take any three slices of these lengths, and a struct of arrays would ask more of a caller.
pub fn turn(
    pool: Pool,
    s: Place,
    chunk: &[u8],
    at: usize,
    answers: &mut [u64],
    log: &mut [u64],
    out: &mut [u8],
) -> Step
    requires at_in_bounds { (at < length chunk.now) × (s.line + (length chunk.now - at) < 2 ^ 64) }
    requires stands { Stands s × Buffers answers.old log.old out.old }
    ensures { Turned pool s chunk.now at
        answers.old answers.new out.new result }
{
    let a = advance(s, chunk, at, answers, out);
    let Some(due) = a.due else {
        return Step {
            pool,
            place: a.place,
            at: a.at,
            filled: a.filled,
            shown: false,
        };
    };
    let ran = run_due(pool, due, &answers[..2 * a.count], log, out);
    let mut place = a.place;
    if !ran.shown {
        place.over = true;
    }
    Step {
        pool: ran.pool,
        place,
        at: a.at,
        filled: ran.filled,
        shown: ran.shown,
    }
}

// The end of the input, behind a line feed: the call that waits is run.
pub fn last(pool: Pool, s: Place, answers: &[u64], log: &mut [u64], out: &mut [u8]) -> Ran
    requires { (s.count ≤ KEPT) × Buffers answers.now log.old out.old }
    ensures { Lasts pool s answers.now out.new result }
{
    match s.pending {
        Some(due) if !s.over => run_due(pool, due, &answers[..2 * s.count], log, out),
        _ => Ran {
            pool,
            filled: 0,
            shown: false,
        },
    }
}
