// A call that was run, as lines of a trace: its own line, the records of its log, its result.
#![tactic(auto)]

ghost use Rattle.std.specs.Prelude.{◌≡◌, ◌+◌, ◌*◌, ◌≤◌, length};
ghost use Rattle.tables.specs.Outcomes.{numbers, is};
ghost use Rattle.trace.specs.Bounds.{longest_line};
ghost use Rattle.replay_lines.specs.Records.{PutRecords};
ghost use Rattle.replay_lines.specs.Traced.{call_line, result_of, PutCall};

use tables::Outcome;
use trace::Line;

// kept: a log is a slice of numbers with a count of records beside it, as C lends it to `pool_open` and its like.
// Each of the first `count` records, from a place of the buffer on; the place after them.
pub fn put_records(log: &[u64], count: usize, out: &mut [u8], at: usize) -> usize
    requires { (4 * count ≤ length log.now) × (at + longest_line * count ≤ length out.old) }
    ensures { PutRecords log.now count out.old out.new at result }
{
    let mut next = at;
    for i in 0..count {
        let line = Line {
            kind: log[4 * i],
            first: log[4 * i + 1],
            second: log[4 * i + 2],
            third: log[4 * i + 3],
        };
        next = line.put(out, next);
    }
    next
}

// 0 is printed for what the call has no use for.
fn call_line(l: Line) -> Line
    ensures { result ≡ call_line l }
{
    match l.kind {
        Line::OPEN => l,
        Line::MALLOC => Line { third: 0, ..l },
        Line::FREE => Line {
            second: 0,
            third: 0,
            ..l
        },
        _ => Line {
            kind: Line::CLOSE,
            first: 0,
            second: 0,
            third: 0,
        },
    }
}

// The number that a call answers, and its first and second.
fn result_line(outcome: Outcome) -> Line
    ensures { result ≡ result_of (numbers outcome) }
{
    let numbers = outcome.numbers();
    Line {
        kind: Line::RESULT,
        first: numbers.first,
        second: numbers.second,
        third: numbers.number,
    }
}

// 17: answers ran out.
pub fn is_short(outcome: Outcome) -> bool
    ensures { result ≡ is 17 outcome }
{
    matches!(outcome, Outcome::AnswersRanOut)
}

// The call, its records, its result.
pub fn put_call(call: Line, outcome: Outcome, log: &[u64], count: usize, out: &mut [u8]) -> usize
    requires { (4 * count ≤ length log.now) × (longest_line * (count + 2) ≤ length out.old) }
    ensures { PutCall call outcome log.now count out.old out.new result }
{
    let first = call_line(call);
    let next = first.put(out, 0);
    let end = put_records(log, count, out, next);
    let last = result_line(outcome);
    last.put(out, end)
}
