// docs/RULES.md 3.2, insert free: a range becomes a free region, merged with its neighbours of the same stream, under a fresh event.
#![tactic(auto)]

ghost use Rattle.driving.specs.Ran.{RoomFor};
ghost use Rattle.step_insert_free.specs.Promises.{Insertable, Inserts};

use driving::Driver;
use regions::split_merging;
use tables::{FreeRegion, FreeRegions, Outcome};
use words::{Address, EventId, Word};

// The region that was made. The neighbours are taken out before the record: where it fails, they and the range are in no table, and the counter is not spent.
pub fn insert_free(
    free: &mut FreeRegions,
    counter: &mut u64,
    start: Address,
    size: u64,
    stream: u64,
    driver: &mut Driver,
) -> Result<FreeRegion, Outcome>
    requires { Insertable start.0 size counter.old free.old × RoomFor 1 driver.old }
    ensures { Inserts start.0 size stream driver.old free.old counter.old result driver.new free.new counter.new }
{
    let merged = split_merging(free, start, size, stream);
    driver.must_tell(Word::Record, *counter, stream)?;
    let region = FreeRegion {
        start: merged.start,
        size: merged.size,
        stream,
        id: EventId(*counter),
    };
    free.put(region);
    *counter += 1;
    Ok(region)
}
