// docs/RULES.md 5.5: the active pages beside the spans.
ghost use Rattle.std.specs.Prelude.{◌≡◌, true, ◌+◌, ◌/◌, ◌≤◌, ◌<◌};
ghost use Rattle.lists.specs.Tests.{All};
ghost use Rattle.tables.specs.Bounds.{END};
ghost use Rattle.tables.specs.Values.{tables_of};
ghost use Rattle.tables.specs.WellFormed.{upto, spans, ceilings_kept, pages_match};
ghost use Rattle.pool_soundness.specs.Tests.{InOrder};

use crate::walk::Walk;
use tables::Pool;

// One active entry for each page of the spans, none elsewhere: a walk over the pages beside free and live, `left` pages from `at` on being the rest of
// the span that it stands in.
pub fn pages_match(pool: &Pool) -> bool
    requires count_bound { (ceilings_kept pool.now ≡ true) × (0 < pool.now.page) }
    requires ascends { InOrder (tables_of pool.now) }
    requires all { All (λ h. (pool.now.page ≤ h.size) × (upto h ≤ END)) (spans (tables_of pool.now)) }
    ensures { result ≡ pages_match (tables_of pool.now) }
{
    let mut spans = Walk {
        free: pool.free.entries(),
        live: pool.live.entries(),
        holes: &[],
        zombies: &[],
    };
    let mut at = 0;
    let mut left = 0;
    for g in pool.pages.entries() {
        if left == 0 {
            let Some(span) = spans.take_next() else {
                return false;
            };
            at = span.from;
            left = span.size / pool.page;
        }
        if g.start.0 != at {
            return false;
        }
        at += pool.page;
        left -= 1;
    }
    left == 0 && spans.take_next().is_none()
}
