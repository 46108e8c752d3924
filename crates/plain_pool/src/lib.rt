// A pool as C lays it out: each table has a type of its own, since no type with parameters stands in a C signature. The numbers and their order are the pool's.
#![tactic(auto)]

ghost use Rattle.std.specs.Prelude.{◌≡◌};
ghost use Rattle.plain_pool.specs.Plain.{pool_of, plain_of};

use cells::Table;
use tables::{FreeRegion, Hole, LiveBuffer, Page, Pool, Zombie};
use words::Address;

#[repr(C)]
#[derive(Clone, Copy)]
pub struct PlainFreeRegions {
    pub cells: [FreeRegion; Pool::SPANS],
    pub count: usize,
}

#[repr(C)]
#[derive(Clone, Copy)]
pub struct PlainLiveBuffers {
    pub cells: [LiveBuffer; Pool::SPANS],
    pub count: usize,
}

#[repr(C)]
#[derive(Clone, Copy)]
pub struct PlainHoles {
    pub cells: [Hole; Pool::HOLES],
    pub count: usize,
}

#[repr(C)]
#[derive(Clone, Copy)]
pub struct PlainZombies {
    pub cells: [Zombie; Pool::ZOMBIES],
    pub count: usize,
}

#[repr(C)]
#[derive(Clone, Copy)]
pub struct PlainPages {
    pub cells: [Page; Pool::PAGES],
    pub count: usize,
}

#[repr(C)]
#[derive(Clone, Copy)]
pub struct PlainRoots {
    pub cells: [Address; Pool::ROOTS],
    pub count: usize,
}

#[repr(C)]
#[derive(Clone, Copy)]
pub struct PlainPool {
    pub state: u64,
    pub page: u64,
    pub va: u64,
    pub counter: u64,
    pub free: PlainFreeRegions,
    pub live: PlainLiveBuffers,
    pub holes: PlainHoles,
    pub zombies: PlainZombies,
    pub pages: PlainPages,
    pub roots: PlainRoots,
}

impl From<PlainPool> for Pool {
    ghost from_gives = { λ plain pool. pool ≡ pool_of plain };

    fn from(plain: PlainPool) -> Pool {
        let free = plain.free.cells;
        let live = plain.live.cells;
        let holes = plain.holes.cells;
        let zombies = plain.zombies.cells;
        let pages = plain.pages.cells;
        let roots = plain.roots.cells;
        Pool {
            state: plain.state,
            page: plain.page,
            va: plain.va,
            counter: plain.counter,
            free: Table {
                cells: free,
                count: plain.free.count,
            },
            live: Table {
                cells: live,
                count: plain.live.count,
            },
            holes: Table {
                cells: holes,
                count: plain.holes.count,
            },
            zombies: Table {
                cells: zombies,
                count: plain.zombies.count,
            },
            pages: Table {
                cells: pages,
                count: plain.pages.count,
            },
            roots: Table {
                cells: roots,
                count: plain.roots.count,
            },
        }
    }
}

impl From<Pool> for PlainPool {
    ghost from_gives = { λ pool plain. plain ≡ plain_of pool };

    fn from(pool: Pool) -> PlainPool {
        let free = pool.free.cells;
        let live = pool.live.cells;
        let holes = pool.holes.cells;
        let zombies = pool.zombies.cells;
        let pages = pool.pages.cells;
        let roots = pool.roots.cells;
        PlainPool {
            state: pool.state,
            page: pool.page,
            va: pool.va,
            counter: pool.counter,
            free: PlainFreeRegions {
                cells: free,
                count: pool.free.count,
            },
            live: PlainLiveBuffers {
                cells: live,
                count: pool.live.count,
            },
            holes: PlainHoles {
                cells: holes,
                count: pool.holes.count,
            },
            zombies: PlainZombies {
                cells: zombies,
                count: pool.zombies.count,
            },
            pages: PlainPages {
                cells: pages,
                count: pool.pages.count,
            },
            roots: PlainRoots {
                cells: roots,
                count: pool.roots.count,
            },
        }
    }
}
