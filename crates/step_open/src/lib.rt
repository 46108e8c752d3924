// docs/RULES.md 3.13, open, once its configuration is allowed: one root, one hole, and the initial pages.
#![tactic(auto)]

ghost use Rattle.std.specs.Prelude.{◌≡◌};
ghost use Rattle.tables.specs.Values.{opened, pool_of, no_tables};
ghost use Rattle.tables.specs.Open.{open_steps};
ghost use Rattle.keeping.specs.Open.{Configured};
ghost use Rattle.driving.specs.Ran.{RoomFor};
ghost use Rattle.driving.specs.Endings.{ending};
ghost use Rattle.driving.specs.Pools.{PoolRan};
ghost use Rattle.step_open.specs.Promises.{open_calls};

use driving::Driver;
use step_make_room::make_room;
use step_take_range::reserve_root;
use tables::{Outcome, Pool};
use words::Word;

// An open pool with no tables.
fn no_tables(page: u64, va: u64) -> Pool
    ensures { result ≡ pool_of opened (no_tables page va) }
{
    Pool {
        state: 1,
        page,
        va,
        ..Pool::closed()
    }
}

// A root, and room made in it for the initial pages, which are synced; the base and the page size are the answer.
fn open_in(
    pool: &mut Pool,
    initial: u64,
    stream: u64,
    driver: &mut Driver,
) -> Result<Outcome, Outcome>
    requires configured { Configured pool.old.page pool.old.va initial × RoomFor open_calls driver.old }
    requires empty { pool.old ≡ pool_of opened (no_tables pool.old.page pool.old.va) }
    ensures { PoolRan (open_steps initial stream) open_calls driver.old pool.old (ending result) driver.new pool.new }
{
    let page = pool.page;
    let base = reserve_root(&mut pool.holes, &mut pool.roots, page, pool.va, 0, driver)?;
    if initial == 0 {
        return Ok(Outcome::Opened(base, page));
    }
    // nothing is free: all of it is missing
    let bytes = initial * page;
    make_room(pool, bytes, bytes, stream, driver)?;
    driver.must_tell(Word::Sync, stream, 0)?;
    Ok(Outcome::Opened(base, page))
}

// The pool that was opened, and how that ended.
pub fn open_steps(
    page: u64,
    va: u64,
    initial: u64,
    stream: u64,
    driver: &mut Driver,
) -> (Pool, Result<Outcome, Outcome>)
    requires { Configured page va initial × RoomFor open_calls driver.old }
    ensures { PoolRan (open_steps initial stream) open_calls driver.old (pool_of opened (no_tables page va)) (ending result.1) driver.new result.0 }
{
    let mut pool = no_tables(page, va);
    let ended = open_in(&mut pool, initial, stream, driver);
    (pool, ended)
}
