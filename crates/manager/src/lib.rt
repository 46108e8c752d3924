// The layer that takes sizes in bytes: open, malloc, free, close, over what the pool's own calls promise. Each takes the layer by value and returns it with the
// outcome, the record count and the answers taken, for every value, every argument, every list of answers and every log.
// kept: answers and log are two parameters, as C lends them and as each of the pool's calls takes them.
#![tactic(auto)]

mod closing;
mod entry;
mod freeing;
mod serving;

ghost use Rattle.std.specs.Prelude.{◌≡◌};
ghost use Rattle.manager_rules.specs.Reset.{highest_reset};
ghost use Rattle.manager.specs.Promises.{Opens, Mallocs, Frees, Closes};
ghost use Rattle.manager.specs.Handing.{said_with, handed};

use calls::Pool;
use cells::Table;
use tables::Outcome;
use words::Address;

#[repr(C)]
#[derive(Clone, Copy)]
pub struct Manager {
    pub value: manager_rules::Manager,
}

// `records` were written to the log, `taken` answers were taken.
#[repr(C)]
#[derive(Clone, Copy)]
pub struct Managed {
    pub manager: Manager,
    pub outcome: tables::Outcome,
    pub records: usize,
    pub taken: usize,
}

// What a call that is served hands back beside the layer.
#[derive(Clone, Copy)]
struct Said {
    outcome: Outcome,
    records: usize,
    taken: usize,
}

impl Said {
    // One answer for each record, but 17's last has none.
    fn with_records(outcome: Outcome, records: usize) -> Said
        ensures { result ≡ said_with outcome records }
    {
        let taken = match outcome {
            Outcome::AnswersRanOut => records.saturating_sub(1),
            _ => records,
        };
        Said {
            outcome,
            records,
            taken,
        }
    }
}

impl Manager {
    // The pool's opening, over no small buffers.
    pub fn open(
        granularity: u64,
        override_size: u64,
        va_size: u64,
        initial_pages: u64,
        initial_stream: u64,
        answers: &[u64],
        log: &mut [u64],
    ) -> Managed
        ensures { Opens granularity override_size va_size initial_pages initial_stream
            answers.now log.old result log.new }
    {
        let called = Pool::open(
            granularity,
            override_size,
            va_size,
            initial_pages,
            initial_stream,
            answers,
            log,
        );
        let value = manager_rules::Manager {
            pool: called.pool.value,
            small: Table::empty(),
            current: 0,
            highest: 0,
        };
        Managed {
            manager: Manager { value },
            outcome: called.outcome,
            records: called.records,
            taken: called.taken,
        }
    }

    // A size of at least a page is rounded up and asked of the pool, a smaller one of the driver.
    pub fn malloc(mut self, bytes: u64, stream: u64, answers: &[u64], log: &mut [u64]) -> Managed
        ensures { Mallocs self bytes stream
            answers.now log.old result log.new }
    {
        let ended = serving::malloc(&mut self.value, bytes, stream, answers, log);
        self.hand_back(ended)
    }

    // The small buffers are tried before the pool.
    pub fn free(mut self, address: Address, answers: &[u64], log: &mut [u64]) -> Managed
        ensures { Frees self address answers.now log.old result log.new }
    {
        let ended = freeing::free(&mut self.value, address, answers, log);
        self.hand_back(ended)
    }

    // The most that were held counts from here on.
    pub fn reset_highest(mut self) -> Self
        ensures { result.value ≡ highest_reset self.value }
    {
        self.value.highest = self.value.current;
        self
    }

    // The small buffers go first, and then all that the pool holds.
    pub fn close(mut self, answers: &[u64], log: &mut [u64]) -> Managed
        ensures { Closes self answers.now log.old result log.new }
    {
        let ended = closing::close(&mut self.value, answers, log);
        self.hand_back(ended)
    }

    // A refusal leaves no record.
    fn hand_back(self, ended: Result<Said, Outcome>) -> Managed
        ensures { result ≡ handed self.value ended }
    {
        let said = match ended {
            Ok(said) => said,
            Err(outcome) => Said::with_records(outcome, 0),
        };
        Managed {
            manager: self,
            outcome: said.outcome,
            records: said.records,
            taken: said.taken,
        }
    }
}
