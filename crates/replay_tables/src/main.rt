// As replay, and after each result line the pool's tables (docs/RULES.md 7.6).
#![tactic(auto)]

use named_files::{Wish, asked_for, say};
use replay_files::{Before, pump_each};
use replay_stream::{Prints, pump};

const HELP: &[u8] =
    b"usage: replay_tables [FILE..]\n\nAs replay, and after each result line the pool's tables. Without a file it reads standard\ninput; several are read one after the other, each by itself. docs/TRACES.md says what the\nlines mean.\n";

fn main(rt: HostRuntime) {
    let mut out = rt.stdout();
    let mut err = rt.stderr();
    let mut input = rt.stdin();
    match asked_for(&rt, &input, &mut err, b"replay_tables") {
        Some(Wish::Help) => say(&mut out, HELP),
        Some(Wish::Input) => pump(&rt, &mut input, &mut out, &mut err, Prints::Tables),
        Some(Wish::Files) => pump_each(&rt, &mut out, &mut err, Prints::Tables, Before::Nothing),
        None => {}
    }
}
