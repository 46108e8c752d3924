// What a summary counts of a trace, a line at a time: answers by call and number, failed driver lines by word, the peaks of live and of mapped bytes, and the
// hand-over of each live buffer.
#![tactic(auto)]

ghost use Rattle.std.specs.Prelude.{◌≡◌};
ghost use Rattle.summary_counts.specs.Taking.{Starts, standing_of};

mod bytes;
mod handed;
mod lines;
mod tallies;

pub use bytes::zombie_pages;
pub use handed::{HandOver, HandOvers};
use judge_rules::Run;
use judge_steps::State;
pub use tallies::{Counts, Peak, Times};

// The judge's state, but for the rows of its tables: of each, how many there are.
// kept: no copy of the judge's tables, which are some 70 KB.
#[derive(Clone, Copy)]
pub struct Standing {
    pub run: Run,
    pub reservations: usize,
    pub held: usize,
    pub mapped: usize,
    pub live: usize,
    pub last: Option<u64>,
}

// What a summary holds: the judge's state behind the last line that was taken, and how it stands; the counts, and the hand-overs of the live buffers.
#[derive(Clone, Copy)]
pub struct Summary {
    pub state: State,
    pub standing: Standing,
    pub counts: Counts,
    pub handed: HandOvers,
}

fn standing_of(state: &State) -> Standing
    ensures { result ≡ standing_of state.now }
{
    Standing {
        run: state.run,
        reservations: state.reservations.len(),
        held: state.held.len(),
        mapped: state.mapped.len(),
        live: state.live.len(),
        last: state.last,
    }
}

impl Summary {
    // Before the first line.
    pub fn new() -> Summary
        ensures { Starts result }
    {
        let state = State::new();
        let standing = standing_of(&state);
        Summary {
            state,
            standing,
            counts: Counts::new(),
            handed: HandOvers::new(),
        }
    }
}
