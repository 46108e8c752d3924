// Tables walked side by side: their ranges in ascending address.
ghost use Rattle.std.specs.Prelude.{◌≡◌, map};
ghost use Rattle.tables.specs.WellFormed.{Range};
ghost use Rattle.pool_soundness.specs.Walks.{of_free, of_live, of_hole, of_zombie, range_of, from_of, Took, Ordered, Takes};

use tables::{FreeRegion, Hole, LiveBuffer, Zombie};

// The addresses of an entry.
#[derive(Clone, Copy)]
pub struct Front {
    pub from: u64,
    pub size: u64,
}

// An entry that takes up addresses.
trait Ranged: Copy {
    ghost range: { Self → Range };

    fn front(self) -> Front
        ensures { range_of result ≡ range self };
}

impl Ranged for FreeRegion {
    ghost range = { of_free };

    fn front(self) -> Front {
        Front {
            from: self.start.0,
            size: self.size,
        }
    }
}

impl Ranged for LiveBuffer {
    ghost range = { of_live };

    fn front(self) -> Front {
        Front {
            from: self.start.0,
            size: self.size,
        }
    }
}

impl Ranged for Hole {
    ghost range = { of_hole };

    fn front(self) -> Front {
        Front {
            from: self.start.0,
            size: self.size,
        }
    }
}

impl Ranged for Zombie {
    ghost range = { of_zombie };

    fn front(self) -> Front {
        Front {
            from: self.start.0,
            size: self.size,
        }
    }
}

// Where the next range of a table starts; above all addresses where none is left.
fn start_of<T: Ranged>(left: &[T]) -> u64
    ensures { result ≡ from_of (map T.range left.now) }
{
    match left.first() {
        Some(entry) => entry.front().from,
        None => u64::MAX,
    }
}

// Takes the next range of a table.
fn take<T: Ranged>(left: &mut &[T]) -> Option<Front>
    ensures { Took (map T.range left.old.now) result (map T.range left.new.now) }
{
    let (entry, rest) = left.split_first()?;
    *left = rest;
    Some(entry.front())
}

// What is left of each table.
#[derive(Clone, Copy)]
pub struct Walk<'a> {
    pub free: &'a [FreeRegion],
    pub live: &'a [LiveBuffer],
    pub holes: &'a [Hole],
    pub zombies: &'a [Zombie],
}

impl<'a> Walk<'a> {
    // Takes the lowest range, of equal ones that of the table that stands first here.
    pub fn take_next(&mut self) -> Option<Front>
        requires { Ordered self.old }
        ensures { Takes self.old result self.new }
    {
        let free = start_of(self.free);
        let live = start_of(self.live);
        let holes = start_of(self.holes);
        let zombies = start_of(self.zombies);
        if holes.min(zombies) < free.min(live) {
            if zombies < holes {
                take(&mut self.zombies)
            } else {
                take(&mut self.holes)
            }
        } else if live < free {
            take(&mut self.live)
        } else {
            take(&mut self.free)
        }
    }
}
