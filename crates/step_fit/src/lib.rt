// docs/RULES.md 3.11, fit: a free region that is large enough, as it is or of another stream.
#![tactic(auto)]

ghost use Rattle.std.specs.Prelude.{◌≡◌};
ghost use Rattle.std.proofs.Math.Option.{none};
ghost use Rattle.tables.specs.Values.{free_of};
ghost use Rattle.tables.specs.Kept.{KeptFree};
ghost use Rattle.tables.specs.Fit.{candidates, or_other, fit as fit_step};
ghost use Rattle.driving.specs.Ran.{RoomFor};
ghost use Rattle.step_fit.specs.Promises.{Fittable, Searches, Fits};

use driving::Driver;
use lists::better_of;
use regions::{best_own, take_over};
use tables::{FreeRegions, Outcome};

// Every candidate is asked; the smallest of the complete ones is found, the first of equal ones.
// kept: each look may end the call, so no `min_by_key` of the library is over it.
fn smallest_complete(
    free: &FreeRegions,
    requested: u64,
    driver: &mut Driver,
) -> Result<Option<usize>, Outcome>
    requires { KeptFree free.now × RoomFor free.now.count driver.old }
    ensures { Searches requested free.now driver.old result driver.new }
{
    let mut best = None;
    for (at, q) in free.entries().iter().enumerate() {
        if requested <= q.size && driver.is_complete(q.id)? {
            best = better_of(best, at, q.size);
        }
    }
    Ok(best.map(|b| b.at))
}

// The smallest complete candidate becomes this stream's.
fn fit_other(
    free: &mut FreeRegions,
    requested: u64,
    stream: u64,
    driver: &mut Driver,
) -> Result<Option<usize>, Outcome>
    requires { Fittable free.old × RoomFor free.old.count driver.old }
    ensures { Fits (or_other stream (candidates requested (free_of free.old)) none) driver.old free.old result driver.new free.new }
{
    let found = smallest_complete(free, requested, driver)?;
    if let Some(at) = found {
        take_over(free, at, stream);
    }
    Ok(found)
}

// The smallest candidate of this stream, which is not asked; where there is none, one of another stream.
pub fn fit(
    free: &mut FreeRegions,
    requested: u64,
    stream: u64,
    driver: &mut Driver,
) -> Result<Option<usize>, Outcome>
    requires { Fittable free.old × RoomFor free.old.count driver.old }
    ensures { Fits (fit_step requested stream) driver.old free.old result driver.new free.new }
{
    match best_own(free, requested, stream) {
        Some(at) => Ok(Some(at)),
        None => fit_other(free, requested, stream, driver),
    }
}
