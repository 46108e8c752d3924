// The pool: open, malloc, free, close. Each takes the pool by value and returns it with the outcome, the record count and the answers taken, for every pool
// value, every argument, every list of answers and every log. A call tests its own copy of the pool and changes that; a refusal hands back the one that came.
// kept: answers and log are two parameters, as C lends them; behind the entry they are one `Driver`.
#![tactic(auto)]

mod leaving;
mod refusing;

ghost use Rattle.std.specs.Prelude.{◌≡◌, [], ◌∷◌};
ghost use Rattle.tables.specs.Bounds.{PAGES, SPANS, ZOMBIES, HOLES, ROOTS, VA, END, IDS, LOG};
ghost use Rattle.calls.specs.Promises.{Opens, Mallocs, Frees, Closes};

use driving::Driver;
use pool_entry::{enter, enter_close};
use step_close::close_steps;
use step_free::free_steps;
use step_malloc::malloc_steps;
use step_open::open_steps;
use tables::Outcome;
use words::Address;

#[repr(C)]
#[derive(Clone, Copy)]
pub struct Pool {
    pub value: tables::Pool,
}

// `records` were written to the log, `taken` answers were taken.
// kept: each layer's clauses name a field of its own, `pool` here and `manager` there, so one type for both is no plainer.
#[repr(C)]
#[derive(Clone, Copy)]
pub struct Called {
    pub pool: Pool,
    pub outcome: Outcome,
    pub records: usize,
    pub taken: usize,
}

impl Pool {
    // The ceilings: active pages; free regions and live buffers together; zombies; holes and zombies together; roots.
    pub const PAGES: usize = tables::Pool::PAGES;

    pub const SPANS: usize = tables::Pool::SPANS;

    pub const ZOMBIES: usize = tables::Pool::ZOMBIES;

    pub const HOLES: usize = tables::Pool::HOLES;

    pub const ROOTS: usize = tables::Pool::ROOTS;

    // The largest va_size, where the last address may end, and where ids end.
    pub const VA: u64 = tables::Pool::VA;

    pub const END: u64 = tables::Pool::END;

    pub const IDS: u64 = tables::Pool::IDS;

    // Records that a log must have room for.
    pub const LOG: usize = tables::Pool::LOG;

    // The ceilings by their names in the rules: another number above is refused here. Nothing calls it.
    fn ceilings() -> [u64; 9]
        ensures { result ≡ PAGES ∷ SPANS ∷ ZOMBIES ∷ HOLES ∷ ROOTS ∷ VA ∷ END ∷ IDS ∷ LOG ∷ [] }
    {
        [
            Self::PAGES as u64,
            Self::SPANS as u64,
            Self::ZOMBIES as u64,
            Self::HOLES as u64,
            Self::ROOTS as u64,
            Self::VA,
            Self::END,
            Self::IDS,
            Self::LOG as u64,
        ]
    }

    // Reserves one root and makes the initial pages; `override_size` 0 stands for the granularity.
    pub fn open(
        granularity: u64,
        override_size: u64,
        va_size: u64,
        initial_pages: u64,
        initial_stream: u64,
        answers: &[u64],
        log: &mut [u64],
    ) -> Called
        ensures { Opens granularity override_size va_size initial_pages initial_stream
            answers.now log.old result log.new }
    {
        let room = log.len() / 4;
        if let Err(outcome) = refusing::open_refused(
            granularity,
            override_size,
            va_size,
            initial_pages,
            room,
        ) {
            let value = tables::Pool::closed();
            return leaving::refuse(Pool { value }, outcome);
        }
        let page = refusing::page_size(granularity, override_size);
        let mut driver = Driver::new(answers, log);
        let (pool, ended) = open_steps(page, va_size, initial_pages, initial_stream, &mut driver);
        leaving::leave_opened(pool, ended, driver.made)
    }

    // Cleanup, fit, room where nothing fits, and the first bytes of the region handed over.
    pub fn malloc(self, bytes: u64, stream: u64, answers: &[u64], log: &mut [u64]) -> Called
        ensures { Mallocs self bytes stream
            answers.now log.old result log.new }
    {
        let mut pool = self.value;
        if let Err(outcome) = enter(&mut pool, log.len() / 4) {
            return leaving::refuse(self, outcome);
        }
        let spans = self.value.free.count + self.value.live.count;
        if let Err(outcome) = refusing::size_refused(self.value.page, spans, bytes) {
            return leaving::refuse(self, outcome);
        }
        let mut driver = Driver::new(answers, log);
        let ended = malloc_steps(&mut pool, bytes, stream, &mut driver);
        leaving::leave(self, pool, ended, driver.made)
    }

    // The buffer's range is inserted as free, on its stream.
    pub fn free(self, address: Address, answers: &[u64], log: &mut [u64]) -> Called
        ensures { Frees self address answers.now log.old result log.new }
    {
        let mut pool = self.value;
        if let Err(outcome) = enter(&mut pool, log.len() / 4) {
            return leaving::refuse(self, outcome);
        }
        let Some(at) = pool.live.find(address.0) else {
            return leaving::refuse(self, Outcome::InvalidPointer(address));
        };
        let mut driver = Driver::new(answers, log);
        let freed = free_steps(
            &mut pool.live,
            &mut pool.free,
            &mut pool.counter,
            at,
            &mut driver,
        );
        leaving::leave(self, pool, freed, driver.made)
    }

    // Sync, zombies, pages, roots: all that the pool holds goes back to the driver, and no failure ends it.
    pub fn close(self, answers: &[u64], log: &mut [u64]) -> Called
        ensures { Closes self answers.now log.old result log.new }
    {
        let mut pool = self.value;
        if let Err(outcome) = enter_close(&mut pool, log.len() / 4) {
            return leaving::refuse(self, outcome);
        }
        let mut driver = Driver::new(answers, log);
        let mut failed = 0;
        match close_steps(&pool, &mut driver, &mut failed) {
            Ok(()) => leaving::leave_closed(failed, driver.made),
            Err(outcome) => leaving::leave_short(self, outcome, driver.made),
        }
    }
}
