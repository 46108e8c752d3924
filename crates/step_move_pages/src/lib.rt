// docs/RULES.md 3.8: the pages of the parts pulled are mapped where room is made, and active there instead.
#![tactic(auto)]

ghost use Rattle.std.specs.Prelude.{◌/◌, length};
ghost use Rattle.tables.specs.Pull.{pages_in};
ghost use Rattle.driving.specs.Ran.{RoomFor};
ghost use Rattle.step_move_pages.specs.Promises.{starts_in, ZombieMovable, Moves, PagesMovable, MovesPages};

use driving::Driver;
use plain_tables::pages::{handle_at, with_moved, without_page};
use tables::{Outcome, Pages, Zombie};
use words::{Address, Word};

// The pages of one zombie, from its start on.
fn move_zombie(
    pages: &mut Pages,
    zombie: Zombie,
    to: u64,
    page: u64,
    driver: &mut Driver,
) -> Result<(), Outcome>
    requires { ZombieMovable page to zombie pages.old × RoomFor (zombie.size / page) driver.old }
    ensures { Moves (starts_in page zombie) page to driver.old pages.old result driver.new pages.new }
{
    let mut from = zombie.start.0;
    let mut at = to;
    for _ in 0..zombie.size / page {
        let handle = handle_at(pages, Address(from));
        if let Err(outcome) = driver.must_tell(Word::Map, at, handle.0) {
            // the page is in no table where its map fails
            without_page(pages, Address(from));
            return Err(outcome);
        }
        with_moved(pages, Address(from), Address(at));
        from += page;
        at += page;
    }
    Ok(())
}

// The pages of the zombies just pulled, in that order.
pub fn move_pages(
    pages: &mut Pages,
    pulled: &[Zombie],
    to: u64,
    page: u64,
    driver: &mut Driver,
) -> Result<(), Outcome>
    requires pages_movable { PagesMovable page to pulled.now pages.old }
    requires room_for { RoomFor (length (pages_in page pulled.now)) driver.old }
    ensures { MovesPages page to pulled.now driver.old pages.old result driver.new pages.new }
{
    let mut at = to;
    for zombie in pulled {
        move_zombie(pages, *zombie, at, page, driver)?;
        at += zombie.size;
    }
    Ok(())
}
