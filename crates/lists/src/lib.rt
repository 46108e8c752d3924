// Lists over any element type: definitions in specs/, laws in proofs/. The code is one step of a scan, which knows of an element its key alone.
#![tactic(auto)]

ghost use Rattle.std.specs.Prelude.{◌≡◌};
ghost use Rattle.lists.specs.Scan.{better};

// The element of the least key so far in a scan: its place and its key.
#[derive(Clone, Copy)]
pub struct Best {
    pub at: usize,
    pub least: u64,
}

// The element at a place is looked at: it is the best where there is none yet, or its key is below the best one's.
pub fn better_of(best: Option<Best>, at: usize, key: u64) -> Option<Best>
    ensures { result ≡ better at key best }
{
    match best {
        Some(b) if b.least <= key => best,
        _ => Some(Best { at, least: key }),
    }
}
