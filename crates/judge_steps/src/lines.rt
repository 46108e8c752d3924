// A line: whether a call, a record or a result may stand there, and what it says.
ghost use Rattle.std.specs.Prelude.{◌≡◌, false, true, ◌<◌};
ghost use Rattle.judge_rules.specs.Said.{said, if_open};
ghost use Rattle.judge_rules.specs.Verdict.{start, ended};
ghost use Rattle.judge_rules.specs.declared.Call.TheVariants.{Close};
ghost use Rattle.judge_rules.specs.declared.Said.TheVariants.{Record, Call as Calls, Result as Results, Aside};
ghost use Rattle.judge_steps.specs.State.{judge_of, run_on, starts_run, in_run, ends_run, between_runs};
ghost use Rattle.judge_steps.specs.Promises.{Answers, Stands, Steps, Stays};

use crate::{Fault, State};
use fixed_rows::Rows;
use judge_rules::{Asked, Call, Run, Said, Verdict};
use trace::Line;
use words::Word;

fn if_open(c: Call, one: u64, other: u64) -> u64
    ensures { result ≡ if_open c one other }
{
    match c {
        Call::Open => one,
        Call::Malloc | Call::Free | Call::Close => other,
    }
}

// A call line begins a run.
fn run_on(c: Call, run: Run, l: Line) -> Run
    ensures { result ≡ run_on c run l }
{
    Run {
        opened: true,
        page: if_open(c, l.first, run.page),
        va: if_open(c, l.second, run.va),
        asked: Asked {
            call: c,
            first: l.first,
            second: l.second,
        },
        waiting: true,
        over: run.over,
    }
}

// kept: a `From` would have to stand beside `Said` in crates/judge_rules, which has the definitions and no code.
#[tactic(auto, unfolding(judge_rules::specs::Said::said))]
pub fn said_of(kind: u64) -> Said
    ensures { result ≡ said kind }
{
    match kind {
        1 => Said::Record(Word::Reserve),
        2 => Said::Record(Word::Create),
        3 => Said::Record(Word::Map),
        4 => Said::Record(Word::Access),
        5 => Said::Record(Word::Unmap),
        6 => Said::Record(Word::Release),
        7 => Said::Record(Word::Record),
        8 => Said::Record(Word::Asked),
        9 => Said::Record(Word::Wait),
        10 => Said::Record(Word::Sync),
        11 => Said::Record(Word::Giveback),
        Line::OPEN => Said::Call(Call::Open),
        Line::MALLOC => Said::Call(Call::Malloc),
        Line::FREE => Said::Call(Call::Free),
        Line::CLOSE => Said::Call(Call::Close),
        Line::RESULT => Said::Result,
        Line::SMALL => Said::Aside,
        Line::DROPSMALL => Said::Aside,
        _ => Said::Unknown,
    }
}

// R0 for a call line, a record, a result, a small buffer's line.
fn starts_run(c: Call, run: Run, first: u64) -> bool
    ensures { result ≡ starts_run c run first }
{
    match c {
        Call::Open => !run.opened && first != 0 && !run.waiting,
        Call::Malloc | Call::Free | Call::Close => run.opened && !run.waiting,
    }
}

fn in_run(run: Run) -> bool
    ensures { result ≡ in_run run }
{
    run.opened && run.waiting && !run.over
}

fn ends_run(run: Run, l: Line) -> bool
    ensures { result ≡ ends_run run l }
{
    run.opened && run.waiting && (!run.over || l.first == 0 && l.second == 0 && l.third == 1)
}

fn between_runs(run: Run) -> bool
    ensures { result ≡ between_runs run }
{
    run.opened && !run.waiting
}

impl State {
    // Before the first line.
    pub fn new() -> State
        ensures { judge_of result ≡ start }
    {
        State {
            run: Run {
                opened: false,
                page: 0,
                va: 0,
                asked: Asked {
                    call: Call::Open,
                    first: 0,
                    second: 0,
                },
                waiting: false,
                over: false,
            },
            reservations: Rows::new(),
            held: Rows::new(),
            mapped: Rows::new(),
            live: Rows::new(),
            last: None,
        }
    }

    // A result of answer 0.
    fn on_answer(&mut self, a: u64, b: u64) -> Result<(), Fault>
        requires { 0 < self.old.run.page }
        ensures does { Answers self.old.run.asked.call self.old a b result self.new }
        ensures stays { Stays self.old result self.new }
    {
        match self.run.asked.call {
            Call::Open => Ok(()),
            Call::Malloc => self.on_malloc(a, b),
            Call::Free => self.on_free(a, b),
            Call::Close => {
                self.run.over = true;
                Ok(())
            }
        }
    }

    // docs/RULES.md 8.7: a record of a close ends the buffers that are live, where any are.
    fn ends_live(&self) -> bool
        ensures goes_on { result ≡ false → ended self.now.run.asked.call (judge_of self.now) ≡ judge_of self.now }
        ensures ends { result ≡ true → self.now.run.asked.call ≡ Close }
    {
        match self.run.asked.call {
            Call::Open | Call::Malloc | Call::Free => false,
            Call::Close => !self.live.is_empty(),
        }
    }

    // A call line.
    fn step_call(&mut self, c: Call, l: Line) -> Result<(), Fault>
        ensures does { Steps (Calls c) self.old l result self.new }
        ensures stays { Stays self.old result self.new }
    {
        if !starts_run(c, self.run, l.first) {
            return Err(Fault::Broken(Verdict::R0));
        }
        self.run = run_on(c, self.run, l);
        Ok(())
    }

    // A record that may stand where it does. A failed one has no rule, and changes nothing.
    fn on_standing(&mut self, word: Word, l: Line) -> Result<(), Fault>
        requires { 0 < self.old.run.page }
        ensures does { Stands word self.old l result self.new }
        ensures stays { Stays self.old result self.new }
    {
        if l.third != 0 {
            return Ok(());
        }
        self.on_record(word, l.first, l.second)
    }

    // A record.
    fn step_record(&mut self, word: Word, l: Line) -> Result<(), Fault>
        ensures does { Steps (Record word) self.old l result self.new }
        ensures stays { Stays self.old result self.new }
    {
        if !in_run(self.run) {
            return Err(Fault::Broken(Verdict::R0));
        }
        if !self.ends_live() {
            return self.on_standing(word, l);
        }
        let live = self.live.take();
        if let Err(fault) = self.on_standing(word, l) {
            self.live = live;
            return Err(fault);
        }
        Ok(())
    }

    // A result.
    fn step_result(&mut self, l: Line) -> Result<(), Fault>
        ensures does { Steps Results self.old l result self.new }
        ensures stays { Stays self.old result self.new }
    {
        if !ends_run(self.run, l) {
            return Err(Fault::Broken(Verdict::R0));
        }
        let run = self.run;
        self.run.waiting = false;
        if l.third != 0 {
            return Ok(());
        }
        if let Err(fault) = self.on_answer(l.first, l.second) {
            self.run = run;
            return Err(fault);
        }
        Ok(())
    }

    // A small buffer's line.
    fn step_aside(&self, l: Line) -> Result<(), Fault>
        ensures { Steps Aside self.now l result self.now }
    {
        if !between_runs(self.run) {
            return Err(Fault::Broken(Verdict::R0));
        }
        Ok(())
    }

    // One line. One that is refused, or too much, leaves the state as it was.
    pub fn step(&mut self, l: Line) -> Result<(), Fault>
        ensures does { Steps (said l.kind) self.old l result self.new }
        ensures stays { Stays self.old result self.new }
    {
        match said_of(l.kind) {
            Said::Record(word) => self.step_record(word, l),
            Said::Call(c) => self.step_call(c, l),
            Said::Result => self.step_result(l),
            Said::Aside => self.step_aside(l),
            Said::Unknown => Err(Fault::Broken(Verdict::R0)),
        }
    }
}
