// docs/RULES.md 3.4, 3.5: the missing pages of a request are created and mapped, or all are taken back. Each function walks its rule.
#![tactic(auto)]

ghost use Rattle.std.specs.Prelude.{◌≡◌};
ghost use Rattle.step_new_pages.specs.Promises.{is_new, Unmakable, Unmakes, Returnable, RollsBack, Ready, MakesPages};

use driving::Driver;
use holes::put_back;
use plain_tables::pages::{is_active, without_page};
use tables::{Holes, Outcome, Page, Pages};
use words::{Address, Answer, Handle, Word};

// The range taken for a request: where it starts, its size, how much of it is missing, and for which stream.
#[derive(Clone, Copy)]
pub struct Room {
    pub start: Address,
    pub size: u64,
    pub missing: u64,
    pub stream: u64,
}

// A page of the range, below the next one to make.
fn is_new(room: Room, upto: u64, g: Page) -> bool
    ensures { result ≡ is_new room upto g }
{
    room.start.0 <= g.start.0 && g.start.0 < upto
}

// Unmap and release a new page, failures ignored.
fn unmake(pages: &mut Pages, g: Page, page: u64, driver: &mut Driver) -> Result<(), Outcome>
    requires { Unmakable pages.old driver.old }
    ensures { Unmakes g page driver.old pages.old result driver.new pages.new }
{
    driver.try_tell(Word::Unmap, g.start.0, page)?;
    without_page(pages, g.start);
    driver.try_tell(Word::Release, g.handle.0, 0)
}

// Creation code 2: each new page is unmade in order, then the whole range is a hole again.
fn roll_back(
    pages: &mut Pages,
    holes: &mut Holes,
    page: u64,
    room: Room,
    upto: u64,
    driver: &mut Driver,
) -> Result<(), Outcome>
    requires { Returnable pages.old holes.old room upto driver.old }
    ensures { RollsBack page room upto driver.old pages.old holes.old result driver.new pages.new holes.new }
{
    // a copy is walked: each page unmade leaves the table
    let all = *pages;
    for g in all.entries() {
        if is_new(room, upto, *g) {
            unmake(pages, *g, page, driver)?;
        }
    }
    put_back(holes, room.start, room.size);
    Err(Outcome::OutOfMemory(room.missing, upto - room.start.0))
}

// Each missing page.
pub fn make_pages(
    pages: &mut Pages,
    holes: &mut Holes,
    page: u64,
    room: Room,
    count: usize,
    driver: &mut Driver,
) -> Result<(), Outcome>
    requires { Ready pages.old holes.old page room count driver.old }
    ensures { MakesPages count page room driver.old pages.old holes.old result driver.new pages.new holes.new }
{
    let mut at = room.start.0;
    for _ in 0..count {
        let handle = match driver.create(page)? {
            Answer::Done(handle) => Handle(handle),
            Answer::Failed(2) => return roll_back(pages, holes, page, room, at, driver),
            Answer::Failed(code) => return Err(Outcome::DriverFailed(code)),
            Answer::Missing => return Err(Outcome::AnswersRanOut),
        };
        if is_active(pages, handle) {
            return Err(Outcome::Incredible);
        }
        let start = Address(at);
        driver.must_tell(Word::Map, at, handle.0)?;
        pages.put_from_end(Page { start, handle });
        at += page;
    }
    Ok(())
}
