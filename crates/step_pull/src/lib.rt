// docs/RULES.md 3.7: what lacks is pulled out of other regions.
#![tactic(auto)]

ghost use Rattle.std.specs.Prelude.{◌≡◌, ◌*◌, length};
ghost use Rattle.driving.specs.Ran.{RoomFor};
ghost use Rattle.step_pull.specs.Promises.{Settles, part_of, to_pull, Pullable, Pulls};

use driving::Driver;
use regions::cutting::cut_region;
use regions::next_to_pull;
use tables::{FreeRegion, FreeRegions, Outcome, Zombie, Zombies};
use words::{Address, Word};

// Where the region is another stream's and its event not complete, the stream waits for it.
fn settle(region: FreeRegion, stream: u64, driver: &mut Driver) -> Result<(), Outcome>
    requires { RoomFor 2 driver.old }
    ensures { Settles stream region driver.old result driver.new }
{
    if region.stream == stream {
        return Ok(());
    }
    let complete = driver.is_complete(region.id)?;
    if complete {
        return Ok(());
    }
    driver.must_tell(Word::Wait, region.id.0, stream)
}

// The part of a region that is taken: a zombie with the region's event.
fn part_of(region: FreeRegion, lacks: u64) -> Zombie
    ensures { result ≡ part_of lacks region }
{
    Zombie {
        start: region.start,
        size: lacks.min(region.size),
        id: region.id,
    }
}

// The stream's own regions first, each part by id; the one just made, at `made`, stays. Nothing is pulled beyond what lacks.
pub fn pull(
    free: &mut FreeRegions,
    zombies: &mut Zombies,
    made: Option<Address>,
    stream: u64,
    lacks: u64,
    driver: &mut Driver,
) -> Result<(), Outcome>
    requires pullable { Pullable lacks (to_pull stream made free.old) free.old zombies.old }
    requires room_for { RoomFor (2 * length (to_pull stream made free.old)) driver.old }
    ensures { Pulls stream lacks made driver.old free.old zombies.old result driver.new free.new zombies.new }
{
    let mut left = lacks;
    // kept: each turn changes the table that the next region is sought in, so no iterator over it names the regions.
    while 0 < left {
        let Some(at) = next_to_pull(free, made, stream) else {
            return Ok(());
        };
        let region = free.cells[at];
        let part = part_of(region, left);
        if let Err(outcome) = settle(region, stream, driver) {
            // where settling ends the call the region is in no table
            cut_region(free, at, region.size);
            return Err(outcome);
        }
        cut_region(free, at, part.size);
        zombies.push(part);
        left -= part.size;
    }
    Ok(())
}
