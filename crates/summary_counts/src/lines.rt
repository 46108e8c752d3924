// A line of a trace: the judge takes it, and the summary counts it.
ghost use Rattle.std.specs.Prelude.{◌+◌, ◌<◌, ◌^◌};
ghost use Rattle.summary_counts.specs.Taking.{Taking};

use crate::bytes::{live_bytes, mapped_bytes};
use crate::handed::hand_over;
use crate::{Summary, standing_of};
use judge_steps::Fault;
use trace::Line;

impl Summary {
    // Where the judge takes the line, it is counted.
    pub fn take(&mut self, l: Line) -> Result<(), Fault>
        requires { self.old.counts.lines + 1 < 2 ^ 64 }
        ensures { Taking self.old l result self.new }
    {
        let asked = self.state.run.asked;
        self.state.step(l)?;
        self.standing = standing_of(&self.state);
        let live = live_bytes(self.state.live.as_slice());
        let mapped = mapped_bytes(self.standing.run.page, self.standing.mapped);
        self.counts.count(asked.call, live, mapped, l);
        hand_over(&mut self.handed, asked, l, self.counts.lines);
        Ok(())
    }
}
