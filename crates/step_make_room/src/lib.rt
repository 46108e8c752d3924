// docs/RULES.md 4.3, 3.9: what is refused before room is made; and make room: a range is taken, the missing pages are made in it, and other regions are
// pulled into the rest.
#![tactic(auto)]

ghost use Rattle.tables.specs.MakeRoom.{make_room};
ghost use Rattle.driving.specs.Ran.{RoomFor};
ghost use Rattle.driving.specs.Endings.{ending};
ghost use Rattle.driving.specs.Pools.{PoolRan};
ghost use Rattle.step_new_room.specs.Promises.{Roomable};
ghost use Rattle.step_make_room.specs.Promises.{make_room_calls, Readable, Refuses};

use driving::Driver;
use holes::smallest_hole;
use step_new_room::{insert_new, take_room};
use step_pull_in::pull_in;
use tables::{FreeRegion, Outcome, Pool};

// No fit: 8, 9, 10, 11 in this order, or on.
#[tactic(auto, using(crate::proofs::Refusing::refuses_holes))]
pub fn room_refused(pool: &Pool, requested: u64, missing: u64) -> Result<(), Outcome>
    requires { Readable requested missing pool.now }
    ensures { Refuses requested pool.now result }
{
    if pool.va < requested {
        return Err(Outcome::RequestedExceedsVa(requested, pool.va));
    }
    let left = Pool::PAGES - pool.pages.count;
    if (left as u64) < missing / pool.page {
        return Err(Outcome::PagesFull);
    }
    let pulled = pool.zombies.count + pool.free.count;
    if Pool::ZOMBIES < pulled {
        return Err(Outcome::ZombiesFull);
    }
    if Pool::HOLES <= pulled + pool.holes.count {
        return Err(Outcome::ZombiesFull);
    }
    if pool.roots.count < Pool::ROOTS {
        return Ok(());
    }
    match smallest_hole(&pool.holes, requested) {
        Some(_) => Ok(()),
        None => Err(Outcome::RootsFull),
    }
}

// The new region serves if it is large enough with what it merged with; else what it lacks is pulled in.
pub fn make_room(
    pool: &mut Pool,
    requested: u64,
    missing: u64,
    stream: u64,
    driver: &mut Driver,
) -> Result<FreeRegion, Outcome>
    requires { Roomable requested missing pool.old × RoomFor make_room_calls driver.old }
    ensures { PoolRan (make_room requested stream) make_room_calls driver.old pool.old (ending result) driver.new pool.new }
{
    let room = take_room(pool, requested, missing, stream, driver)?;
    if room.missing == 0 {
        return pull_in(pool, room, None, requested, driver);
    }
    let region = insert_new(pool, room, driver)?;
    if requested <= region.size {
        return Ok(region);
    }
    pull_in(
        pool,
        room,
        Some(region.start),
        requested - region.size,
        driver,
    )
}
