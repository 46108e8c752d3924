// What a line is rejected for that stands where it may not: R0.
#![tactic(auto, unfolding(crate::specs::Reasons::IsTrue, crate::specs::Seen::judge_seen))]

ghost use Rattle.judge_reasons.specs.Reasons.{IsTrue};
ghost use Rattle.judge_reasons.specs.Seen.{judge_seen};

use crate::{Reason, Seen};
use trace::Line;

// Behind the open.
fn of_run(s: &Seen, l: Line) -> Reason
    ensures { IsTrue (judge_seen s.now) l result }
{
    let kind = l.kind;
    let waiting = s.run.waiting;
    let over = s.run.over;
    if waiting {
        if kind < Line::OPEN {
            if over {
                return Reason::AfterClose;
            }
            return Reason::Unexplained;
        }
        if kind < Line::RESULT {
            return Reason::CallWithinCall;
        }
        if Line::SMALL <= kind {
            return Reason::AsideWithinCall;
        }
        if over {
            return Reason::AfterClose;
        }
        return Reason::Unexplained;
    }
    if kind < Line::OPEN {
        return Reason::RecordOutside;
    }
    if kind == Line::RESULT {
        return Reason::ResultOutside;
    }
    Reason::Unexplained
}

// R0, but for malformed lines
pub fn of_order(s: &Seen, l: Line) -> Reason
    ensures { IsTrue (judge_seen s.now) l result }
{
    let opened = s.run.opened;
    if opened {
        if l.kind == Line::OPEN {
            return Reason::OpenAgain;
        }
        return of_run(s, l);
    }
    if l.kind == Line::OPEN {
        if l.first == 0 {
            return Reason::PageSizeZero;
        }
        return Reason::Unexplained;
    }
    Reason::NotOpened
}
