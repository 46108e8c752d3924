// docs/RULES.md 3.9, its first half: a range is taken, its missing pages are made and inserted as free.
#![tactic(auto)]

ghost use Rattle.std.specs.Prelude.{◌≡◌, ◌-◌};
ghost use Rattle.driving.specs.Ran.{RoomFor};
ghost use Rattle.step_new_room.specs.Promises.{take_room_calls, Roomable, TakesRoom, Insertable, InsertsNew};

use driving::Driver;
use step_insert_free::insert_free;
use step_new_pages::{Room, make_pages};
use step_take_range::take_range;
use tables::{FreeRegion, Outcome, Pool};
use words::Word;

// docs/RULES.md 3.9: what the free bytes lack of a request.
pub fn missing_of(free: u64, requested: u64) -> u64
    ensures { result ≡ requested - free }
{
    requested.saturating_sub(free)
}

// A range is taken, from a hole or a new root, and the missing pages are made in it.
pub fn take_room(
    pool: &mut Pool,
    requested: u64,
    missing: u64,
    stream: u64,
    driver: &mut Driver,
) -> Result<Room, Outcome>
    requires { Roomable requested missing pool.old × RoomFor take_room_calls driver.old }
    ensures { TakesRoom requested stream driver.old pool.old result driver.new pool.new }
{
    let page = pool.page;
    let start = take_range(
        &mut pool.holes,
        &mut pool.roots,
        page,
        pool.va,
        requested,
        driver,
    )?;
    let room = Room {
        start,
        size: requested,
        missing,
        stream,
    };
    let count = (missing / page) as usize;
    make_pages(&mut pool.pages, &mut pool.holes, page, room, count, driver)?;
    Ok(room)
}

// The new pages, if there are any, become a free region.
pub fn insert_new(pool: &mut Pool, room: Room, driver: &mut Driver) -> Result<FreeRegion, Outcome>
    requires { Insertable room pool.old × RoomFor 2 driver.old }
    ensures { InsertsNew room driver.old pool.old result driver.new pool.new }
{
    driver.must_tell(Word::Access, room.start.0, room.missing)?;
    insert_free(
        &mut pool.free,
        &mut pool.counter,
        room.start,
        room.missing,
        room.stream,
        driver,
    )
}
