// The layer as C lays it out, over the plain pool.
// kept: no type with parameters stands in a C signature.
ghost use Rattle.std.specs.Prelude.{◌≡◌};
ghost use Rattle.finder.specs.Plain.{manager_of, plain_of};

use cells::Table;
use manager_rules::{Manager, SmallBuffer};
use plain_pool::PlainPool;
use tables::Pool;

#[repr(C)]
#[derive(Clone, Copy)]
pub struct PlainSmallBuffers {
    pub cells: [SmallBuffer; Manager::SMALLS],
    pub count: usize,
}

#[repr(C)]
#[derive(Clone, Copy)]
pub struct PlainManager {
    pub pool: PlainPool,
    pub small: PlainSmallBuffers,
    pub current: u64,
    pub highest: u64,
}

impl From<PlainManager> for Manager {
    ghost from_gives = { λ plain manager. manager ≡ manager_of plain };

    fn from(plain: PlainManager) -> Manager {
        let cells = plain.small.cells;
        Manager {
            pool: Pool::from(plain.pool),
            small: Table {
                cells,
                count: plain.small.count,
            },
            current: plain.current,
            highest: plain.highest,
        }
    }
}

impl From<Manager> for PlainManager {
    ghost from_gives = { λ manager plain. plain ≡ plain_of manager };

    fn from(manager: Manager) -> PlainManager {
        let cells = manager.small.cells;
        PlainManager {
            pool: PlainPool::from(manager.pool),
            small: PlainSmallBuffers {
                cells,
                count: manager.small.count,
            },
            current: manager.current,
            highest: manager.highest,
        }
    }
}
