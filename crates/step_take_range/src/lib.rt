// docs/RULES.md 3.3: a range is taken from a hole, or from a new root.
#![tactic(auto)]

ghost use Rattle.std.specs.Prelude.{◌<◌};
ghost use Rattle.tables.specs.Bounds.{ROOTS};
ghost use Rattle.tables.specs.TakeRange.{reserve_root, take_range};
ghost use Rattle.driving.specs.Ran.{RoomFor};
ghost use Rattle.step_take_range.specs.Promises.{Takeable, RootLeft, Takes};

use driving::Driver;
use holes::{cut_hole, insert_hole, smallest_hole};
use plain_tables::roots::is_credible;
use tables::{Holes, Outcome, Roots};
use words::{Address, Answer};

// A new root, whose rest becomes a hole: where it starts.
pub fn reserve_root(
    holes: &mut Holes,
    roots: &mut Roots,
    page: u64,
    va: u64,
    requested: u64,
    driver: &mut Driver,
) -> Result<Address, Outcome>
    requires takeable { Takeable page va requested holes.old roots.old }
    requires count_bound { (roots.old.count < ROOTS) × RoomFor 1 driver.old }
    ensures { Takes (reserve_root requested) page va driver.old holes.old roots.old result driver.new holes.new roots.new }
{
    let Answer::Done(value) = driver.reserve(va)? else {
        return Err(Outcome::ReserveFailed(va, page));
    };
    let base = Address(value);
    if !is_credible(roots, base, page, va) {
        return Err(Outcome::Incredible);
    }
    roots.push(base);
    insert_hole(holes, Address(value + requested), va - requested);
    Ok(base)
}

// From the smallest hole that is large enough, the first of equal ones; from a new root where none is. Where the range starts.
pub fn take_range(
    holes: &mut Holes,
    roots: &mut Roots,
    page: u64,
    va: u64,
    requested: u64,
    driver: &mut Driver,
) -> Result<Address, Outcome>
    requires takeable { Takeable page va requested holes.old roots.old }
    requires root_left { RootLeft requested holes.old roots.old × RoomFor 1 driver.old }
    ensures { Takes (take_range requested) page va driver.old holes.old roots.old result driver.new holes.new roots.new }
{
    let Some(at) = smallest_hole(holes, requested) else {
        return reserve_root(holes, roots, page, va, requested, driver);
    };
    let start = holes.cells[at].start;
    cut_hole(holes, at, requested);
    Ok(start)
}
