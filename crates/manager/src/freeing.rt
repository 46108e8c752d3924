// A free.
ghost use Rattle.std.specs.Prelude.{◌≡◌, ◌≤◌, ◌<◌, get_or, Ok};
ghost use Rattle.std.proofs.Math.Option.{some, none};
ghost use Rattle.manager_rules.specs.Values.{SMALLS, empty_small, small};
ghost use Rattle.manager_rules.specs.Free.{drop_answered};
ghost use Rattle.manager.specs.Entry.{own_refused};
ghost use Rattle.manager.specs.Handing.{Told};
ghost use Rattle.manager.specs.Behind.{Freed, FreesFound};

use crate::Said;
use crate::entry::own_refused;
use calls::Pool;
use manager_parts::{drop_record, pool_refused};
use manager_rules::{Manager, SmallBuffer};
use small_buffers::without_small;
use tables::Outcome;
use words::{Address, Answer};

// The small buffers are tried before the pool.
pub fn free(
    m: &mut Manager,
    address: Address,
    answers: &[u64],
    log: &mut [u64],
) -> Result<Said, Outcome>
    ensures { Freed m.old address answers.now log.old m.new result log.new }
{
    own_refused(m)?;
    match m.small.find(address.0) {
        Some(at) => drop_small(m, address, at, answers, log),
        None => whole_free(m, address, answers, log),
    }
}

// The pool's free, which answers the size.
fn whole_free(
    m: &mut Manager,
    address: Address,
    answers: &[u64],
    log: &mut [u64],
) -> Result<Said, Outcome>
    requires { own_refused m.old ≡ Ok tt }
    ensures { FreesFound none m.old address.0 answers.now log.old m.new result log.new }
{
    let called = Pool { value: m.pool }.free(address, answers, log);
    m.pool = called.pool.value;
    if let Outcome::Freed(size, _) = called.outcome {
        m.current -= size;
    }
    Ok(Said {
        outcome: called.outcome,
        records: called.records,
        taken: called.taken,
    })
}

// The small buffer at a place of its table, behind 1 to 5 of the pool.
fn drop_small(
    m: &mut Manager,
    address: Address,
    at: usize,
    answers: &[u64],
    log: &mut [u64],
) -> Result<Said, Outcome>
    requires { (own_refused m.old ≡ Ok tt) × (at < m.old.small.count) }
    ensures { FreesFound (some (get_or (small m.old) at empty_small)) m.old address.0
        answers.now log.old m.new result log.new }
{
    pool_refused(&m.pool, log.len() / 4)?;
    let b = m.small.cells[at];
    let answer = Answer::at(answers, 0);
    let record = drop_record(b, answer.code());
    record.write(log, 0);
    let outcome = drop_answered(m, b, answer);
    Ok(Said::with_records(outcome, 1))
}

fn drop_answered(m: &mut Manager, b: SmallBuffer, answer: Answer) -> Outcome
    requires { (m.old.small.count ≤ SMALLS) × (b.size ≤ m.old.current) }
    ensures { Told (drop_answered m.old b answer) result m.new }
{
    match answer {
        Answer::Missing => Outcome::AnswersRanOut,
        Answer::Failed(code) => Outcome::DriverFailed(code),
        Answer::Done(_) => {
            without_small(&mut m.small, b.pointer);
            m.current -= b.size;
            Outcome::Freed(b.size, b.stream)
        }
    }
}
