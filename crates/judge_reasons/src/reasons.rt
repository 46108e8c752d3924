// Why a line is rejected, by the rule that the verdict names.
ghost use Rattle.judge_reasons.specs.Reasons.{IsTrue};
ghost use Rattle.judge_reasons.specs.Seen.{judge_seen};

use crate::order::of_order;
use crate::ranges::{of_malloc, of_range, of_unmap};
use crate::rules::{of_create, of_event, of_free, of_giveback, of_map, of_release, of_reserve};
use crate::{Reason, Seen};
use judge_rules::Verdict;
use trace::Line;

// The state is the one that the line was judged by. Whatever is answered is true of it; where nothing is found, it is Unexplained.
#[tactic(auto, unfolding(crate::specs::Reasons::IsTrue))]
pub fn why(s: &Seen, l: Line, rule: u64) -> Reason
    ensures { IsTrue (judge_seen s.now) l result }
{
    match rule {
        Verdict::R0 => of_order(s, l),
        Verdict::R1 => of_reserve(s, l),
        Verdict::R2 => of_create(s, l),
        Verdict::R3 => of_map(s, l),
        Verdict::R4 => of_unmap(s, l),
        Verdict::R5 => of_release(s, l),
        Verdict::R6 => of_range(s, l),
        Verdict::R7 => of_malloc(s, l),
        Verdict::R8 => of_free(s, l),
        Verdict::R9 => of_event(s, l),
        Verdict::R10 => of_giveback(s, l),
        _ => Reason::Unexplained,
    }
}
