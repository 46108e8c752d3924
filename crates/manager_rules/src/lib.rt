// The layer that takes sizes in bytes, above the pool: its value, and what a call of it hands back. The rules over them are in specs/.
#![tactic(auto)]

ghost use Rattle.std.specs.Prelude.{◌≡◌};
ghost use Rattle.manager_rules.specs.Values.{closed_manager, empty_small};

use cells::{Entry, Table};
use tables::Pool;

// A buffer smaller than a page, which is the driver's own.
#[repr(C)]
#[derive(Clone, Copy)]
pub struct SmallBuffer {
    pub pointer: u64,
    pub size: u64,
    pub stream: u64,
}

impl Entry for SmallBuffer {
    const EMPTY: SmallBuffer = SmallBuffer {
        pointer: 0,
        size: 0,
        stream: 0,
    };

    ghost EMPTY = { empty_small };

    ghost key = { λ b. b.pointer };

    fn key(self) -> u64 {
        self.pointer
    }

    fn bits(self) -> u64 {
        self.pointer | self.size | self.stream
    }
}

// In the order in which they came.
pub type SmallBuffers = Table<SmallBuffer, { Manager::SMALLS }>;

// The bytes that are held now, and the most that ever were.
#[repr(C)]
#[derive(Clone, Copy)]
pub struct Manager {
    pub pool: Pool,
    pub small: SmallBuffers,
    pub current: u64,
    pub highest: u64,
}

impl Manager {
    pub const SMALLS: usize = 128;

    // The largest size that is asked of the pool, 2^63.
    pub const BYTES: u64 = 0x8000_0000_0000_0000;

    // kept: C hands the state in as any number, as the pool's own.
    // The states of the pool.
    pub const CLOSED: u64 = 0;

    pub const STOPPED: u64 = 2;

    // 0 in every number and cell.
    pub fn closed() -> Manager
        ensures { result ≡ closed_manager }
    {
        Manager {
            pool: Pool::closed(),
            small: Table::empty(),
            current: 0,
            highest: 0,
        }
    }
}
