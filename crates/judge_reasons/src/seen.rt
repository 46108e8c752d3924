// The judge's state as it is looked at when a line is rejected.
ghost use Rattle.std.specs.Prelude.{◌≡◌};
ghost use Rattle.judge_steps.specs.State.{judge_of};
ghost use Rattle.judge_reasons.specs.Seen.{judge_seen};

use judge_rules::Run;
use judge_steps::State;
use judge_tables::{Live, Page, Reservation};

// Nothing is asked of it: a table may have any rows and any number of them, and an open may have said the page size 0.
#[derive(Clone, Copy)]
pub struct Seen<'a> {
    pub run: Run,
    pub reservations: &'a [Reservation],
    pub held: &'a [u64],
    pub mapped: &'a [Page],
    pub live: &'a [Live],
    pub last: Option<u64>,
}

impl Seen<'_> {
    pub fn of(state: &State) -> Seen<'_>
        ensures { judge_seen result ≡ judge_of state.now }
    {
        Seen {
            run: state.run,
            reservations: state.reservations.as_slice(),
            held: state.held.as_slice(),
            mapped: state.mapped.as_slice(),
            live: state.live.as_slice(),
            last: state.last,
        }
    }
}
