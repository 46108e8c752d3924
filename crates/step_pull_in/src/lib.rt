// docs/RULES.md 3.7, 3.8: other regions are pulled, their pages follow the new ones, and what they fill is inserted as free.
#![tactic(auto)]

ghost use Rattle.tables.specs.Values.{free_of};
ghost use Rattle.tables.specs.Pull.{pull_in};
ghost use Rattle.driving.specs.Ran.{RoomFor};
ghost use Rattle.driving.specs.Endings.{ending};
ghost use Rattle.driving.specs.Pools.{PoolRan};
ghost use Rattle.regions.specs.Pulling.{besides};
ghost use Rattle.step_new_pages.specs.Promises.{room_of};
ghost use Rattle.step_pull_in.specs.Promises.{pull_in_calls, Fillable};

use driving::Driver;
use step_insert_free::insert_free;
use step_move_pages::move_pages;
use step_new_pages::Room;
use step_pull::pull;
use tables::{FreeRegion, Outcome, Pool};
use words::{Address, Word};

// Pulled, moved, made usable, inserted: `lacks` bytes behind the new pages. The region just made, at `made`, is not pulled.
pub fn pull_in(
    pool: &mut Pool,
    room: Room,
    made: Option<Address>,
    lacks: u64,
    driver: &mut Driver,
) -> Result<FreeRegion, Outcome>
    requires { Fillable room made lacks pool.old × RoomFor pull_in_calls driver.old }
    ensures { PoolRan (pull_in (room_of room) lacks (besides made (free_of pool.old.free))) pull_in_calls driver.old pool.old (ending result) driver.new pool.new }
{
    let to = room.start.0 + room.missing;
    let first = pool.zombies.count;
    pull(
        &mut pool.free,
        &mut pool.zombies,
        made,
        room.stream,
        lacks,
        driver,
    )?;
    let pulled = &pool.zombies.entries()[first..];
    move_pages(&mut pool.pages, pulled, to, pool.page, driver)?;
    driver.must_tell(Word::Access, to, lacks)?;
    insert_free(
        &mut pool.free,
        &mut pool.counter,
        Address(to),
        lacks,
        room.stream,
        driver,
    )
}
