// docs/RULES.md 3.10, cleanup: what each zombie held is unmapped and becomes a hole, once its event is complete.
#![tactic(auto)]

ghost use Rattle.std.specs.Prelude.{◌*◌};
ghost use Rattle.driving.specs.Ran.{RoomFor};
ghost use Rattle.step_cleanup.specs.Promises.{Cleanable, CleansUp};

use driving::Driver;
use holes::insert_hole;
use tables::{Holes, Outcome, Zombies};
use words::Word;

// The walk over the zombies. One that is cleaned leaves another in its place, which is asked next.
// The zombie is taken out before the unmap: where no answer is left for that, its range is in no table.
pub fn cleanup(zombies: &mut Zombies, holes: &mut Holes, driver: &mut Driver) -> Result<(), Outcome>
    requires { Cleanable zombies.old holes.old × RoomFor (2 * zombies.old.count) driver.old }
    ensures { CleansUp driver.old zombies.old holes.old result driver.new zombies.new holes.new }
{
    // kept: the place moves past a zombie that stays alone, and the table shrinks under the walk, so no range or iterator over it names the next one.
    let mut at = 0;
    while at < zombies.count {
        let zombie = zombies.cells[at];
        if driver.is_complete(zombie.id)? {
            zombies.swap_out(at);
            driver.try_tell(Word::Unmap, zombie.start.0, zombie.size)?;
            insert_hole(holes, zombie.start, zombie.size);
        } else {
            at += 1;
        }
    }
    Ok(())
}
