// A close. The pool's close writes its records from the first cell of the log on, for it asks for the whole of it; they are then moved behind those of the small
// buffers, which come first.
ghost use Rattle.std.specs.Prelude.{◌≡◌, ◌+◌, ◌*◌, ◌/◌, ◌≤◌, length};
ghost use Rattle.manager_rules.specs.Values.{SMALLS, small};
ghost use Rattle.manager.specs.Behind.{Closed, PoolCloses, DropsBefore, closed_with};

use crate::Said;
use crate::entry::close_refused;
use calls::{Called, Pool};
use manager_parts::{move_up, write_drops};
use manager_rules::{Manager, SmallBuffer};
use tables::Outcome;

pub fn close(m: &mut Manager, answers: &[u64], log: &mut [u64]) -> Result<Said, Outcome>
    ensures { Closed m.old answers.now log.old m.new result log.new }
{
    close_refused(m)?;
    let called = close_pool(m, answers, log);
    // kept: the pool gives one outcome for a refusal and a close; a refusal alone has no record.
    if called.records == 0 {
        return Err(called.outcome);
    }
    let small = m.small.entries();
    let pairs = answers.len() / 2;
    if pairs < small.len() {
        let dropped = write_drops(small, answers, log);
        return Ok(Said {
            outcome: Outcome::AnswersRanOut,
            records: dropped,
            taken: pairs,
        });
    }
    put_before(small, answers, log, called.records);
    let said = Said {
        outcome: called.outcome,
        records: small.len() + called.records,
        taken: small.len() + called.taken,
    };
    *m = closed_with(m, called.outcome);
    Ok(said)
}

// The pool's close, lent the answers behind those of the small buffers.
fn close_pool(m: &Manager, answers: &[u64], log: &mut [u64]) -> Called
    requires { m.now.small.count ≤ SMALLS }
    ensures { PoolCloses m.now.pool (length (small m.now)) answers.now log.old result log.new }
{
    let small = m.small.entries();
    let from = (2 * small.len()).min(answers.len());
    Pool { value: m.pool }.close(&answers[from..], log)
}

// The records of the small buffers, before those that stand in the log.
fn put_before(small: &[SmallBuffer], answers: &[u64], log: &mut [u64], records: usize)
    requires fits { 4 * (records + length small.now) ≤ length log.old }
    requires answered { length small.now ≤ length answers.now / 2 }
    ensures { DropsBefore small.now answers.now records log.old log.new }
{
    move_up(log, records, small.len());
    write_drops(small, answers, log);
}

// At 17 the layer is the one that came.
fn closed_with(m: &Manager, outcome: Outcome) -> Manager
    ensures { result ≡ closed_with m.now outcome }
{
    match outcome {
        Outcome::AnswersRanOut => *m,
        _ => Manager::closed(),
    }
}
