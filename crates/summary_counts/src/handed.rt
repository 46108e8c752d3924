// The hand-overs of the live buffers, kept as the judge keeps its live buffers, the oldest first.
ghost use Rattle.std.specs.Prelude.{◌≡◌, eqb};
ghost use Rattle.judge_rules.specs.Said.{said};
ghost use Rattle.summary_counts.specs.HandOvers.{answered_by, handed_by, hand_overs_in, Leaves};

use fixed_rows::Rows;
use judge_rules::{Asked, Call, Said};
use judge_steps::{State, said_of};
use trace::Line;

#[derive(Clone, Copy, Default)]
pub struct HandOver {
    pub start: u64,
    pub size: u64,
    pub stream: u64,
    pub line: u64,
}

pub type HandOvers = Rows<HandOver, { State::MOST_LIVE }>;

// A result of answer 0.
fn on_done(handed: &mut HandOvers, asked: Asked, l: Line, line: u64)
    ensures { Leaves handed.new (answered_by asked.call asked l line (hand_overs_in handed.old)) }
{
    match asked.call {
        Call::Open | Call::Close => {}
        Call::Malloc => {
            // the judge takes none where its table is full
            let _ = handed.try_push(HandOver {
                start: l.first,
                size: l.second,
                stream: asked.second,
                line,
            });
        }
        Call::Free => handed.retain(|o| o.start != asked.first),
    }
}

// A line of the call `asked`.
pub(crate) fn hand_over(handed: &mut HandOvers, asked: Asked, l: Line, line: u64)
    ensures { Leaves handed.new
        (handed_by (said l.kind) (eqb l.third 0) asked l line (hand_overs_in handed.old)) }
{
    match said_of(l.kind) {
        Said::Result => {
            if l.third == 0 {
                on_done(handed, asked, l, line);
            }
        }
        Said::Record(_) => {
            if let Call::Close = asked.call {
                handed.clear();
            }
        }
        Said::Call(_) | Said::Aside | Said::Unknown => {}
    }
}
