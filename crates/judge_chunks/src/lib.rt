// The judge of a trace whose bytes come in chunks: whatever the cuts, its verdict is that of the definitions on the lines of the whole.
#![tactic(auto)]

ghost use Rattle.std.specs.Prelude.{◌≡◌, [], ◌+◌, ◌<◌, ◌^◌, length};
ghost use Rattle.judge_chunks.specs.Promises.{verdict_on, verdict_after, IsStart, TakesLine, Judged, Onward, Feeds, Lasts};

use judge_rules::Verdict;
use judge_steps::{Fault, State};
use trace::{Partial, Reading};

// How far a trace is judged: the lines so far, what they have said, the part of a line that was read, and what the last line came to.
#[derive(Clone, Copy)]
pub struct Progress {
    pub lines: u64,
    pub state: State,
    pub partial: Partial,
    pub outcome: Result<(), Fault>,
}

impl Progress {
    // Before the first byte.
    pub fn new() -> Progress
        ensures { IsStart result }
    {
        Progress {
            lines: 0,
            state: State::new(),
            partial: Partial::fresh(),
            outcome: Ok(()),
        }
    }

    // What a line that was read says.
    fn on_reading(&mut self, reading: Reading)
        requires { self.old.lines + 1 < 2 ^ 64 }
        ensures { Judged self.new self.old reading }
    {
        self.lines += 1;
        self.partial = Partial::fresh();
        self.outcome = match reading {
            Reading::Good(l) => self.state.step(l),
            Reading::Malformed => Err(Fault::Broken(Verdict::R0)),
        };
    }

    // One line of a chunk, or the part of one that stands at its end; the place behind it.
    fn feed_line(&mut self, chunk: &[u8], at: usize) -> usize
        requires { TakesLine self.old at chunk.now }
        ensures { Onward self.new self.old at result chunk.now }
    {
        let reach = self.partial.scan(chunk, at);
        if reach.ended {
            self.on_reading(reach.partial.finish());
        } else {
            self.partial = reach.partial;
        }
        reach.at
    }

    // A chunk of the bytes. Once a line is refused, or too much, what follows is not read.
    pub fn feed(&mut self, chunk: &[u8])
        requires { self.old.lines + length chunk.now < 2 ^ 64 }
        ensures { Feeds self.new self.old chunk.now }
    {
        let mut at: usize = 0;
        // kept: a turn goes to the end of a line, which the reader finds by place.
        while at < chunk.len() {
            if self.outcome.is_err() {
                return;
            }
            at = self.feed_line(chunk, at);
        }
    }

    // The end of the input: a last line without its line feed counts.
    fn last_line(&mut self)
        requires { self.old.lines + 1 < 2 ^ 64 }
        ensures { Lasts self.new self.old }
    {
        if self.outcome.is_err() || self.partial.is_fresh() {
            return;
        }
        self.on_reading(self.partial.finish());
    }

    // The verdict on the lines so far, where none follows.
    fn settle(&self) -> Verdict
        requires { self.now.lines + 1 < 2 ^ 64 }
        ensures { result ≡ verdict_on self.now [] }
    {
        match self.outcome {
            Ok(()) => {
                if !self.state.run.opened || self.state.run.waiting {
                    return Verdict::Rejected(self.lines + 1, Verdict::R0);
                }
                Verdict::Accepted
            }
            Err(Fault::Broken(rule)) => Verdict::Rejected(self.lines, rule),
            Err(Fault::Beyond(which)) => Verdict::Large(self.lines, which),
        }
    }

    // The verdict, when all bytes were fed.
    pub fn finish(&mut self) -> Verdict
        requires { self.old.lines + 2 < 2 ^ 64 }
        ensures { result ≡ verdict_after self.old [] }
    {
        self.last_line();
        self.settle()
    }
}
