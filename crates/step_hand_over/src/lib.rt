// docs/RULES.md 3.12: the first bytes of a region are handed over.
#![tactic(auto)]

ghost use Rattle.step_hand_over.specs.Promises.{Handable, HandsOver};

use regions::cutting::cut_region;
use tables::{FreeRegions, LiveBuffer, LiveBuffers};
use words::Address;

// Where the buffer starts. What is left of the region at the place stays free as it was.
pub fn hand_over(
    free: &mut FreeRegions,
    live: &mut LiveBuffers,
    at: usize,
    bytes: u64,
    stream: u64,
) -> Address
    requires { Handable bytes at free.old live.old }
    ensures { HandsOver bytes stream at free.old live.old result free.new live.new }
{
    let start = free.cells[at].start;
    cut_region(free, at, bytes);
    live.put(LiveBuffer {
        start,
        size: bytes,
        stream,
    });
    start
}
