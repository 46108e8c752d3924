// Replays each trace that an argument names, with the pool's tables after each result. Every file of data/ is a session of sessions/, but for those calls of A to N
// that are answered 6: its expected output is what compare/'s `rust_replay --tables` prints for it.
#![tactic(auto)]

use replay_files::{Before, pump_each};
use replay_stream::Prints;

fn main(rt: HostRuntime) {
    pump_each(
        &rt,
        &mut rt.stdout(),
        &mut rt.stderr(),
        Prints::Tables,
        Before::Name,
    );
}
