// Reads a trace, runs its calls on the answers that it lends, and prints its own trace.
#![tactic(auto)]

use named_files::{Wish, asked_for, say};
use replay_files::{Before, pump_each};
use replay_stream::{Prints, pump};

const HELP: &[u8] =
    b"usage: replay [FILE..]\n\nReads a trace, runs its calls on the answers that its driver lines lend, and prints the\npool's own trace on standard output. Without a file it reads standard input; several are\nread one after the other, each by itself. docs/TRACES.md says what the lines mean.\n";

fn main(rt: HostRuntime) {
    let mut out = rt.stdout();
    let mut err = rt.stderr();
    let mut input = rt.stdin();
    match asked_for(&rt, &input, &mut err, b"replay") {
        Some(Wish::Help) => say(&mut out, HELP),
        Some(Wish::Input) => pump(&rt, &mut input, &mut out, &mut err, Prints::Trace),
        Some(Wish::Files) => pump_each(&rt, &mut out, &mut err, Prints::Trace, Before::Nothing),
        None => {}
    }
}
