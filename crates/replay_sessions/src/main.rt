// Replays each trace that an argument names, and prints its name and then its output. Beside recorded sessions, whose output is the input, data/ holds small
// inputs of one idea each, under its name; where the idea is a number handed back, n and that number come first.
#![tactic(auto)]

use replay_files::{Before, pump_each};
use replay_stream::Prints;

fn main(rt: HostRuntime) {
    pump_each(
        &rt,
        &mut rt.stdout(),
        &mut rt.stderr(),
        Prints::Trace,
        Before::Name,
    );
}
