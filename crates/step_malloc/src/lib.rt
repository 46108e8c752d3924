// docs/RULES.md 3.14, malloc, once it is admitted.
#![tactic(auto)]

ghost use Rattle.tables.specs.Malloc.{malloc_steps};
ghost use Rattle.driving.specs.Ran.{RoomFor};
ghost use Rattle.driving.specs.Endings.{ending};
ghost use Rattle.driving.specs.Pools.{PoolRan};
ghost use Rattle.step_make_room.specs.Promises.{make_room_calls};
ghost use Rattle.step_malloc.specs.Promises.{malloc_calls, Mallocable, Handable, HandsOut, RoomsOut};

use driving::Driver;
use regions::free_bytes;
use step_cleanup::cleanup;
use step_fit::fit;
use step_hand_over::hand_over;
use step_make_room::{make_room, room_refused};
use step_new_room::missing_of;
use tables::{FreeRegion, Outcome, Pool};

// The region's first bytes are the buffer: its address and size are the answer.
fn hand_out(pool: &mut Pool, region: FreeRegion, bytes: u64, stream: u64) -> Outcome
    requires { Handable bytes region pool.old }
    ensures { HandsOut bytes stream region pool.old result pool.new }
{
    let at = pool.free.place(region.start.0);
    let start = hand_over(&mut pool.free, &mut pool.live, at, bytes, stream);
    Outcome::Allocated(start, bytes)
}

// No fit: refused, or room is made.
fn malloc_room(
    pool: &mut Pool,
    bytes: u64,
    stream: u64,
    driver: &mut Driver,
) -> Result<Outcome, Outcome>
    requires { Mallocable bytes pool.old × RoomFor make_room_calls driver.old }
    ensures { RoomsOut bytes stream driver.old pool.old result driver.new pool.new }
{
    let missing = missing_of(free_bytes(&pool.free), bytes);
    room_refused(pool, bytes, missing)?;
    let region = make_room(pool, bytes, missing, stream, driver)?;
    Ok(hand_out(pool, region, bytes, stream))
}

// Cleanup, fit, room where nothing fits, the buffer handed over.
pub fn malloc_steps(
    pool: &mut Pool,
    bytes: u64,
    stream: u64,
    driver: &mut Driver,
) -> Result<Outcome, Outcome>
    requires { Mallocable bytes pool.old × RoomFor malloc_calls driver.old }
    ensures { PoolRan (malloc_steps bytes stream) malloc_calls driver.old pool.old (ending result) driver.new pool.new }
{
    cleanup(&mut pool.zombies, &mut pool.holes, driver)?;
    let Some(at) = fit(&mut pool.free, bytes, stream, driver)? else {
        return malloc_room(pool, bytes, stream, driver);
    };
    let start = hand_over(&mut pool.free, &mut pool.live, at, bytes, stream);
    Ok(Outcome::Allocated(start, bytes))
}
