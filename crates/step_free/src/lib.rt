// docs/RULES.md 3.15, free, once the buffer is found. The steps are lent only the two tables that they change.
#![tactic(auto)]

ghost use Rattle.driving.specs.Ran.{RoomFor};
ghost use Rattle.step_free.specs.Promises.{Freeable, FreeRan};

use driving::Driver;
use step_insert_free::insert_free;
use tables::{FreeRegions, LiveBuffers, Outcome};

// The live entry is taken out first: where the record fails, the range is in no table. Success gives the buffer's size and stream.
pub fn free_steps(
    live: &mut LiveBuffers,
    free: &mut FreeRegions,
    counter: &mut u64,
    at: usize,
    driver: &mut Driver,
) -> Result<Outcome, Outcome>
    requires { Freeable at live.old free.old counter.old × RoomFor 1 driver.old }
    ensures { FreeRan at live.old free.old counter.old driver.old result driver.new live.new free.new counter.new }
{
    let buffer = live.cells[at];
    live.remove_at(at);
    insert_free(
        free,
        counter,
        buffer.start,
        buffer.size,
        buffer.stream,
        driver,
    )?;
    Ok(Outcome::Freed(buffer.size, buffer.stream))
}
