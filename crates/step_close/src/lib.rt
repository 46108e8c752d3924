// docs/RULES.md 3.16, close: what the pool holds goes back to the driver. A stopped pool may hold any numbers: nothing is divided or added with them.
// `failed` counts the failed lines.
#![tactic(auto)]

ghost use Rattle.std.specs.Prelude.{◌*◌, ◌≤◌, length};
ghost use Rattle.tables.specs.Steps.{each};
ghost use Rattle.tables.specs.Driver.{try};
ghost use Rattle.driving.specs.Ran.{RoomFor};
ghost use Rattle.driving.specs.Promises.{telling};
ghost use Rattle.step_close.specs.Promises.{unmap_zombie, close_page, give_back, close_calls, Counts, Closable, Closes};

use driving::Driver;
use tables::{Outcome, Page, Pool, Zombie};
use words::{Address, Answer, Word};

// A driver call, whose failure is counted.
fn count_tell(
    driver: &mut Driver,
    failed: &mut usize,
    word: Word,
    first: u64,
    second: u64,
) -> Result<(), Outcome>
    requires { (failed.old ≤ driver.old.made) × RoomFor 1 driver.old }
    ensures { Counts (try (telling word first second)) 1 driver.old failed.old result driver.new failed.new }
{
    if let Answer::Failed(_) = driver.tell(word, first, second)? {
        *failed += 1;
    }
    Ok(())
}

// The zombies' ranges.
fn unmap_zombies(zombies: &[Zombie], driver: &mut Driver, failed: &mut usize) -> Result<(), Outcome>
    requires { (failed.old ≤ driver.old.made) × RoomFor (length zombies.now) driver.old }
    ensures { Counts (each unmap_zombie zombies.now) (length zombies.now) driver.old failed.old result driver.new failed.new }
{
    for z in zombies {
        count_tell(driver, failed, Word::Unmap, z.start.0, z.size)?;
    }
    Ok(())
}

// Unmap and release a page.
fn close_page(g: Page, page: u64, driver: &mut Driver, failed: &mut usize) -> Result<(), Outcome>
    requires { (failed.old ≤ driver.old.made) × RoomFor 2 driver.old }
    ensures { Counts (close_page page g) 2 driver.old failed.old result driver.new failed.new }
{
    count_tell(driver, failed, Word::Unmap, g.start.0, page)?;
    count_tell(driver, failed, Word::Release, g.handle.0, 0)
}

// The pages, in the order of the table.
fn close_pages(
    pages: &[Page],
    page: u64,
    driver: &mut Driver,
    failed: &mut usize,
) -> Result<(), Outcome>
    requires { (failed.old ≤ driver.old.made) × RoomFor (2 * length pages.now) driver.old }
    ensures { Counts (each (close_page page) pages.now) (2 * length pages.now) driver.old failed.old result driver.new failed.new }
{
    for g in pages {
        close_page(*g, page, driver, failed)?;
    }
    Ok(())
}

// The roots, each of `va` bytes.
fn give_back_roots(
    roots: &[Address],
    va: u64,
    driver: &mut Driver,
    failed: &mut usize,
) -> Result<(), Outcome>
    requires { (failed.old ≤ driver.old.made) × RoomFor (length roots.now) driver.old }
    ensures { Counts (each (give_back va) roots.now) (length roots.now) driver.old failed.old result driver.new failed.new }
{
    for base in roots {
        count_tell(driver, failed, Word::Giveback, base.0, va)?;
    }
    Ok(())
}

// Sync, zombies, pages, roots: the pool's tables stay as they are.
pub fn close_steps(pool: &Pool, driver: &mut Driver, failed: &mut usize) -> Result<(), Outcome>
    requires { (Closable pool.now × (failed.old ≤ driver.old.made)) × RoomFor close_calls driver.old }
    ensures { Closes driver.old failed.old pool.now result driver.new failed.new }
{
    count_tell(driver, failed, Word::Sync, 0, 0)?;
    unmap_zombies(pool.zombies.entries(), driver, failed)?;
    close_pages(pool.pages.entries(), pool.page, driver, failed)?;
    give_back_roots(pool.roots.entries(), pool.va, driver, failed)
}
