// The judge of a trace that stands in memory as a whole.
#![tactic(auto)]

ghost use Rattle.std.specs.Prelude.{◌≡◌};
ghost use Rattle.trace.specs.Lines.{lines_of};
ghost use Rattle.judge_rules.specs.Verdict.{verdict};

use judge_chunks::Progress;
use judge_rules::Verdict;

pub fn judge(trace: &[u8]) -> Verdict
    ensures { result ≡ verdict (lines_of trace.now) }
{
    let mut progress = Progress::new();
    progress.feed(trace);
    progress.finish()
}
