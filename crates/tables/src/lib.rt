// The pool value: its tables, each with cells and a count, and what a call answers. The rules over them are in specs/.
#![tactic(auto)]

ghost use Rattle.std.specs.Prelude.{◌≡◌};
ghost use Rattle.tables.specs.Outcomes.{answers, numbers};
ghost use Rattle.tables.specs.Values.{closed_pool, empty_region, empty_buffer, empty_hole, empty_zombie, empty_page};
ghost use Rattle.tables.specs.WellFormed.{ceilings_kept};

use cells::{Entry, Table};
use words::{Address, EventId, Handle};

// A free region: the last event of its pages, and the stream that it is on.
#[repr(C)]
#[derive(Clone, Copy)]
pub struct FreeRegion {
    pub start: Address,
    pub size: u64,
    pub stream: u64,
    pub id: EventId,
}

#[repr(C)]
#[derive(Clone, Copy)]
pub struct LiveBuffer {
    pub start: Address,
    pub size: u64,
    pub stream: u64,
}

// A reserved range with nothing mapped.
#[repr(C)]
#[derive(Clone, Copy)]
pub struct Hole {
    pub start: Address,
    pub size: u64,
}

// A range whose pages were mapped elsewhere, to be unmapped when the event is complete.
#[repr(C)]
#[derive(Clone, Copy)]
pub struct Zombie {
    pub start: Address,
    pub size: u64,
    pub id: EventId,
}

// An active page.
#[repr(C)]
#[derive(Clone, Copy)]
pub struct Page {
    pub start: Address,
    pub handle: Handle,
}

impl Entry for FreeRegion {
    const EMPTY: FreeRegion = FreeRegion {
        start: Address(0),
        size: 0,
        stream: 0,
        id: EventId(0),
    };

    ghost EMPTY = { empty_region };

    ghost key = { λ r. r.start.0 };

    fn key(self) -> u64 {
        self.start.0
    }

    fn bits(self) -> u64 {
        self.start.0 | self.size | self.stream | self.id.0
    }
}

impl Entry for LiveBuffer {
    const EMPTY: LiveBuffer = LiveBuffer {
        start: Address(0),
        size: 0,
        stream: 0,
    };

    ghost EMPTY = { empty_buffer };

    ghost key = { λ b. b.start.0 };

    fn key(self) -> u64 {
        self.start.0
    }

    fn bits(self) -> u64 {
        self.start.0 | self.size | self.stream
    }
}

impl Entry for Hole {
    const EMPTY: Hole = Hole {
        start: Address(0),
        size: 0,
    };

    ghost EMPTY = { empty_hole };

    ghost key = { λ h. h.start.0 };

    fn key(self) -> u64 {
        self.start.0
    }

    fn bits(self) -> u64 {
        self.start.0 | self.size
    }
}

impl Entry for Zombie {
    const EMPTY: Zombie = Zombie {
        start: Address(0),
        size: 0,
        id: EventId(0),
    };

    ghost EMPTY = { empty_zombie };

    ghost key = { λ z. z.start.0 };

    fn key(self) -> u64 {
        self.start.0
    }

    fn bits(self) -> u64 {
        self.start.0 | self.size | self.id.0
    }
}

impl Entry for Page {
    const EMPTY: Page = Page {
        start: Address(0),
        handle: Handle(0),
    };

    ghost EMPTY = { empty_page };

    ghost key = { λ g. g.start.0 };

    fn key(self) -> u64 {
        self.start.0
    }

    fn bits(self) -> u64 {
        self.start.0 | self.handle.0
    }
}

pub type FreeRegions = Table<FreeRegion, { Pool::SPANS }>;

pub type LiveBuffers = Table<LiveBuffer, { Pool::SPANS }>;

pub type Holes = Table<Hole, { Pool::HOLES }>;

pub type Zombies = Table<Zombie, { Pool::ZOMBIES }>;

pub type Pages = Table<Page, { Pool::PAGES }>;

pub type Roots = Table<Address, { Pool::ROOTS }>;

// `state` is 0 closed, 1 open, 2 stopped; `page` is the page size, `va` the size of each root, `counter` the next event id.
// kept: C hands the pool in as any numbers, so the state is a number, and no table has an invariant: a type that had one would be a copy for each call.
#[repr(C)]
#[derive(Clone, Copy)]
pub struct Pool {
    pub state: u64,
    pub page: u64,
    pub va: u64,
    pub counter: u64,
    pub free: FreeRegions,
    pub live: LiveBuffers,
    pub holes: Holes,
    pub zombies: Zombies,
    pub pages: Pages,
    pub roots: Roots,
}

impl Pool {
    // Active pages.
    pub const PAGES: usize = 256;

    // Free regions and live buffers together.
    pub const SPANS: usize = 128;

    pub const ZOMBIES: usize = 128;

    // Holes and zombies together.
    pub const HOLES: usize = 512;

    pub const ROOTS: usize = 16;

    // The largest va_size, 2^46.
    pub const VA: u64 = 0x4000_0000_0000;

    // Where the last address may end, 2^63.
    pub const END: u64 = 0x8000_0000_0000_0000;

    // Ids are below this where a call may spend one, 2^62.
    pub const IDS: u64 = 0x4000_0000_0000_0000;

    // Records that a log must have room for.
    pub const LOG: usize = 2048;

    // 0 in every number and cell.
    pub fn closed() -> Pool
        ensures { result ≡ closed_pool }
    {
        Pool {
            state: 0,
            page: 0,
            va: 0,
            counter: 0,
            free: Table::empty(),
            live: Table::empty(),
            holes: Table::empty(),
            zombies: Table::empty(),
            pages: Table::empty(),
            roots: Table::empty(),
        }
    }

    // docs/RULES.md 5.1: the counts. They are any numbers, so no two are added.
    pub fn ceilings_kept(&self) -> bool
        ensures { result ≡ ceilings_kept self.now }
    {
        if Pool::PAGES < self.pages.count {
            return false;
        }
        if Pool::SPANS < self.free.count {
            return false;
        }
        if Pool::SPANS - self.free.count < self.live.count {
            return false;
        }
        if Pool::ZOMBIES < self.zombies.count {
            return false;
        }
        if Pool::HOLES - self.zombies.count < self.holes.count {
            return false;
        }
        self.roots.count <= Pool::ROOTS
    }
}

// What a call answers.
// kept: a reply names one outcome, so those that end a call well are in the same enum as those that refuse it.
#[derive(Clone, Copy)]
pub enum Outcome {
    Opened(Address, u64),
    Allocated(Address, u64),
    Freed(u64, u64),
    Closed(u64),
    PoolClosed,
    PoolStopped,
    NotWellFormed,
    ShortLog,
    IdsSpent,
    BadSize(u64),
    SpansFull,
    RequestedExceedsVa(u64, u64),
    PagesFull,
    ZombiesFull,
    RootsFull,
    ReserveFailed(u64, u64),
    OutOfMemory(u64, u64),
    DriverFailed(u64),
    Incredible,
    InvalidPointer(Address),
    AnswersRanOut,
    BadConfiguration,
    // of the layer that takes bytes: as many small buffers as it has room for
    SmallBuffersFull,
}

// The number of an outcome, and its two values: all that a trace, C and Rust see of it.
// kept: C and the trace read three numbers.
#[derive(Clone, Copy)]
pub struct Numbers {
    pub number: u64,
    pub first: u64,
    pub second: u64,
}

impl Numbers {
    fn of(number: u64, first: u64, second: u64) -> Numbers
        ensures { result ≡ answers number first second }
    {
        Numbers {
            number,
            first,
            second,
        }
    }
}

impl Outcome {
    pub fn numbers(self) -> Numbers
        ensures { result ≡ numbers self }
    {
        match self {
            Outcome::Opened(base, page) => Numbers::of(0, base.0, page),
            Outcome::Allocated(start, size) => Numbers::of(0, start.0, size),
            Outcome::Freed(size, stream) => Numbers::of(0, size, stream),
            Outcome::Closed(failures) => Numbers::of(0, failures, 0),
            Outcome::PoolClosed => Numbers::of(1, 0, 0),
            Outcome::PoolStopped => Numbers::of(2, 0, 0),
            Outcome::NotWellFormed => Numbers::of(3, 0, 0),
            Outcome::ShortLog => Numbers::of(4, 0, 0),
            Outcome::IdsSpent => Numbers::of(5, 0, 0),
            Outcome::BadSize(size) => Numbers::of(6, size, 0),
            Outcome::SpansFull => Numbers::of(7, 0, 0),
            Outcome::RequestedExceedsVa(size, va) => Numbers::of(8, size, va),
            Outcome::PagesFull => Numbers::of(9, 0, 0),
            Outcome::ZombiesFull => Numbers::of(10, 0, 0),
            Outcome::RootsFull => Numbers::of(11, 0, 0),
            Outcome::ReserveFailed(va, page) => Numbers::of(12, va, page),
            Outcome::OutOfMemory(missing, made) => Numbers::of(13, missing, made),
            Outcome::DriverFailed(code) => Numbers::of(14, code, 0),
            Outcome::Incredible => Numbers::of(15, 0, 0),
            Outcome::InvalidPointer(start) => Numbers::of(16, start.0, 0),
            Outcome::AnswersRanOut => Numbers::of(17, 0, 0),
            Outcome::BadConfiguration => Numbers::of(19, 0, 0),
            Outcome::SmallBuffersFull => Numbers::of(20, 0, 0),
        }
    }
}
