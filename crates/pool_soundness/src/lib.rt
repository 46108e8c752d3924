// docs/RULES.md 5, well formed, as a test of a pool: equal to its definition whatever the counts and numbers.
#![tactic(auto)]

mod names;
mod numbers;
mod pages;
mod ranges;
mod roots;
mod walk;

ghost use Rattle.std.specs.Prelude.{◌≡◌, true};
ghost use Rattle.tables.specs.Values.{tables_of};
ghost use Rattle.tables.specs.WellFormed.{allowed, ceilings_kept, sound};
ghost use Rattle.pool_soundness.specs.Tests.{InOrder};

use names::names_sound;
use pages::pages_match;
use ranges::{holes_untouched, ranges_sound};
use roots::roots_sound;
use tables::Pool;

// docs/RULES.md 5.2: page size and va_size.
pub fn is_allowed(page: u64, va: u64) -> bool
    ensures { result ≡ allowed page va }
{
    page != 0 && va != 0 && va % page == 0 && va <= Pool::VA
}

// docs/RULES.md 5.2 to 5.6, of a pool whose tables are in order. A test leans on those before it.
pub fn is_sound(pool: &Pool) -> bool
    requires p_value { ceilings_kept pool.now ≡ true }
    requires in_order { InOrder (tables_of pool.now) }
    ensures { result ≡ sound (tables_of pool.now) }
{
    is_allowed(pool.page, pool.va)
        && roots_sound(&pool.roots, pool.page, pool.va)
        && ranges_sound(pool)
        && holes_untouched(&pool.holes)
        && pages_match(pool)
        && names_sound(&pool.free, &pool.zombies, &pool.pages, pool.counter)
}
