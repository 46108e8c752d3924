// The judge's rules and steps in code.
#![tactic(auto)]

ghost use Rattle.std.specs.Prelude.{◌≡◌, true, ◌<◌};

mod lines;
mod records;
mod rules;

use fixed_rows::Rows;
use judge_rules::Run;
use judge_tables::{Live, Page, Reservation};
pub use lines::said_of;

// What the lines so far have said: where the trace stands, the reservations, the handles that are held, the mapped pages, the live buffers and the last event id
// that was recorded. A table has the oldest row first.
#[derive(Clone, Copy)]
pub struct State {
    pub run: Run,
    pub reservations: Rows<Reservation, { State::MOST_RESERVATIONS }>,
    pub held: Rows<u64, { State::MOST_HELD }>,
    pub mapped: Rows<Page, { State::MOST_MAPPED }>,
    pub live: Rows<Live, { State::MOST_LIVE }>,
    pub last: Option<u64>,
    // once opened, there is a page size
    pub ghost paged: { run.opened ≡ true → 0 < run.page },
}

impl State {
    // How many rows a table has room for.
    pub const MOST_RESERVATIONS: usize = 16;

    pub const MOST_HELD: usize = 256;

    pub const MOST_MAPPED: usize = 4096;

    pub const MOST_LIVE: usize = 128;
}

// Why a line is not taken: the rule that it breaks, or what is too large after it.
// kept: the rule and the size are numbers, as `Verdict` and the rules of crates/judge_rules have them.
#[derive(Clone, Copy, Drop)]
pub enum Fault {
    Broken(u64),
    Beyond(u64),
}
