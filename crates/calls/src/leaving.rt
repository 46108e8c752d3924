// What a call hands back, by how it ended.
ghost use Rattle.std.specs.Prelude.{◌≡◌, ◌-◌};
ghost use Rattle.tables.specs.Kept.{KeptPool};
ghost use Rattle.tables.specs.HandsBack.{outcome_of};
ghost use Rattle.driving.specs.Endings.{ending};
ghost use Rattle.calls.specs.Leaving.{state_after, opened_after, leaving, leaving_opened, leaving_short, leaving_closed, leaving_refused};

use super::{Called, Pool};
use tables::Outcome;

// The state that an outcome leaves: 2 for 14 and 15, 1 else; none for 17, which leaves the pool as at entry.
fn state_after(outcome: Outcome) -> Option<u64>
    ensures { result ≡ state_after outcome }
{
    match outcome {
        Outcome::AnswersRanOut => None,
        Outcome::DriverFailed(_) | Outcome::Incredible => Some(2),
        _ => Some(1),
    }
}

// The state that an outcome of open leaves: 1 for success, 2 else; none for 17, which leaves a closed pool.
fn opened_after(outcome: Outcome) -> Option<u64>
    ensures { result ≡ opened_after outcome }
{
    match outcome.numbers().number {
        17 => None,
        0 => Some(1),
        _ => Some(2),
    }
}

// Whether the steps went on to their last or ended before it, the outcome is this.
fn outcome_of(ended: Result<Outcome, Outcome>) -> Outcome
    ensures { result ≡ outcome_of (ending ended) }
{
    match ended {
        Ok(outcome) | Err(outcome) => outcome,
    }
}

// A refusal at entry: the pool as it came, and no record.
pub fn refuse(pool: Pool, outcome: Outcome) -> Called
    ensures { result ≡ leaving_refused pool outcome }
{
    Called {
        pool,
        outcome,
        records: 0,
        taken: 0,
    }
}

// The pool is stopped by 14 and 15; 17 hands back the one that came, `pool`.
pub fn leave(
    pool: Pool,
    mut left: tables::Pool,
    ended: Result<Outcome, Outcome>,
    made: usize,
) -> Called
    requires { KeptPool left }
    ensures { result ≡ leaving pool left (outcome_of (ending ended)) made }
{
    let outcome = outcome_of(ended);
    let Some(state) = state_after(outcome) else {
        return leave_short(pool, outcome, made);
    };
    left.state = state;
    Called {
        pool: Pool { value: left },
        outcome,
        records: made,
        taken: made,
    }
}

// Open gives a closed pool if it ends in 17 or has no root.
pub fn leave_opened(mut left: tables::Pool, ended: Result<Outcome, Outcome>, made: usize) -> Called
    requires { KeptPool left }
    ensures { result ≡ leaving_opened left (outcome_of (ending ended)) made }
{
    let outcome = outcome_of(ended);
    let value = tables::Pool::closed();
    let Some(state) = opened_after(outcome) else {
        return leave_short(Pool { value }, outcome, made);
    };
    if 0 < left.roots.count {
        left.state = state;
    } else {
        left = value;
    }
    Called {
        pool: Pool { value: left },
        outcome,
        records: made,
        taken: made,
    }
}

// 17: this pool is handed back. Its last record has no answer.
pub fn leave_short(pool: Pool, outcome: Outcome, made: usize) -> Called
    ensures { result ≡ leaving_short pool outcome made }
{
    Called {
        pool,
        outcome,
        records: made,
        taken: made.saturating_sub(1),
    }
}

// A close that is done: its failures are counted, and the pool is closed.
pub fn leave_closed(failed: usize, made: usize) -> Called
    ensures { result ≡ leaving_closed failed made }
{
    Called {
        pool: Pool {
            value: tables::Pool::closed(),
        },
        outcome: Outcome::Closed(failed as u64),
        records: made,
        taken: made,
    }
}
