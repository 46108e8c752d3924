// What bench/ calls from outside, under C's conventions: the least that a call costs which takes the pool by value and hands it back.
#![tactic(auto)]

ghost use Rattle.std.specs.Prelude.{◌≡◌, true};
ghost use Rattle.cells.specs.Table.{Tells};
ghost use Rattle.tables.specs.WellFormed.{well_formed};
ghost use Rattle.plain_pool.specs.Plain.{pool_of};
ghost use Rattle.pool_entry.specs.Promises.{Stands};

use plain_pool::PlainPool;
use tables::Pool;

// kept: C reads this struct.
#[repr(C)]
#[derive(Clone, Copy)]
pub struct Passed {
    pub pool: PlainPool,
    pub sound: bool,
}

// The pool in and out.
#[unsafe(no_mangle)]
pub extern "C" fn measured_passed(pool: PlainPool) -> Passed
    ensures { (result.pool ≡ pool) × (result.sound ≡ true) }
{
    Passed { pool, sound: true }
}

// The pool in, each number of it looked at once, and out.
#[unsafe(no_mangle)]
pub extern "C" fn measured_looked(pool: PlainPool) -> Passed
    ensures { (result.pool ≡ pool) × Tells result.sound (Stands (pool_of pool)) }
{
    let sound = pool_entry::stands(&Pool::from(pool));
    Passed { pool, sound }
}

// The pool in, tested, and out.
#[unsafe(no_mangle)]
pub extern "C" fn measured_tested(pool: PlainPool) -> Passed
    ensures { (result.pool ≡ pool) × (result.sound ≡ well_formed (pool_of pool)) }
{
    let sound = pool_entry::is_well_formed(&mut Pool::from(pool));
    Passed { pool, sound }
}

#[unsafe(no_mangle)]
pub extern "C" fn measured_well_formed(pool: PlainPool) -> bool
    ensures { result ≡ well_formed (pool_of pool) }
{
    pool_entry::is_well_formed(&mut Pool::from(pool))
}
