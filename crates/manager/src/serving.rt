// A malloc.
ghost use Rattle.std.specs.Prelude.{◌≡◌, Ok};
ghost use Rattle.manager_rules.specs.Sizes.{smaller, whole, request};
ghost use Rattle.manager_rules.specs.Malloc.{small_answered};
ghost use Rattle.manager.specs.Entry.{own_refused};
ghost use Rattle.manager.specs.Handing.{Told};
ghost use Rattle.manager.specs.Behind.{Served, Serves, SmallFits};

use crate::Said;
use crate::entry::own_refused;
use calls::Pool;
use manager_parts::{Request, asked_by, grow, pool_refused, small_record};
use manager_rules::{Manager, SmallBuffer};
use small_buffers::{is_incredible, with_small};
use tables::Outcome;
use words::{Address, Answer};

// By what the size asks for. Where it is no size, 6 comes behind 1 to 5.
pub fn malloc(
    m: &mut Manager,
    bytes: u64,
    stream: u64,
    answers: &[u64],
    log: &mut [u64],
) -> Result<Said, Outcome>
    ensures { Served m.old bytes stream answers.now log.old m.new result log.new }
{
    own_refused(m)?;
    match asked_by(m.pool.page, bytes) {
        Request::Whole(size) => whole_malloc(m, bytes, size, stream, answers, log),
        Request::Smaller => small_malloc(m, bytes, stream, answers, log),
        Request::Unfit => {
            pool_refused(&m.pool, log.len() / 4)?;
            Err(Outcome::BadSize(bytes))
        }
    }
}

// The pool's malloc of whole pages.
fn whole_malloc(
    m: &mut Manager,
    bytes: u64,
    size: u64,
    stream: u64,
    answers: &[u64],
    log: &mut [u64],
) -> Result<Said, Outcome>
    requires { (own_refused m.old ≡ Ok tt) × (request m.old.pool.page bytes ≡ whole size) }
    ensures { Serves (whole size) m.old bytes stream answers.now log.old m.new result log.new }
{
    let called = Pool { value: m.pool }.malloc(size, stream, answers, log);
    m.pool = called.pool.value;
    if let Outcome::Allocated(_, _) = called.outcome {
        grow(m, size);
    }
    Ok(Said {
        outcome: called.outcome,
        records: called.records,
        taken: called.taken,
    })
}

// 1 to 5 of the pool, 20, and then the driver.
fn small_malloc(
    m: &mut Manager,
    bytes: u64,
    stream: u64,
    answers: &[u64],
    log: &mut [u64],
) -> Result<Said, Outcome>
    requires { (own_refused m.old ≡ Ok tt) × (request m.old.pool.page bytes ≡ smaller) }
    ensures { Serves smaller m.old bytes stream answers.now log.old m.new result log.new }
{
    pool_refused(&m.pool, log.len() / 4)?;
    if m.small.count >= Manager::SMALLS {
        return Err(Outcome::SmallBuffersFull);
    }
    let answer = Answer::at(answers, 0);
    let record = small_record(answer.value(), bytes, answer.code());
    record.write(log, 0);
    let outcome = small_answered(m, bytes, stream, answer);
    Ok(Said::with_records(outcome, 1))
}

// A buffer of the driver's own, behind every refusal.
fn small_answered(m: &mut Manager, bytes: u64, stream: u64, answer: Answer) -> Outcome
    requires { SmallFits m.old bytes }
    ensures { Told (small_answered m.old bytes stream answer) result m.new }
{
    let pointer = match answer {
        Answer::Missing => return Outcome::AnswersRanOut,
        Answer::Failed(code) => return Outcome::DriverFailed(code),
        Answer::Done(pointer) => pointer,
    };
    if is_incredible(&m.small, &m.pool.roots, m.pool.va, pointer) {
        m.pool.state = Manager::STOPPED;
        return Outcome::Incredible;
    }
    let b = SmallBuffer {
        pointer,
        size: bytes,
        stream,
    };
    with_small(&mut m.small, b);
    grow(m, bytes);
    Outcome::Allocated(Address(pointer), bytes)
}
