// docs/RULES.md 7.6: a pool's tables as text, one entry a line. No count is trusted: of a table at most its cells are printed.
#![tactic(auto)]

ghost use Rattle.std.specs.Prelude.{◌≡◌, ◌+◌, ◌*◌, ◌≤◌, List, ℕ, length, take};
ghost use Rattle.lists.specs.Walks.{joined};
ghost use Rattle.replay_table_text.specs.Tables.{free_entry, live_entry, hole_entry, zombie_entry, page_entry, root_entry, tables_text};
ghost use Rattle.replay_table_text.specs.Bounds.{longest_entry, longest_free, longest_live, longest_hole, longest_zombie, longest_page, longest_root, longest_tables};
ghost use Rattle.replay_table_text.specs.Puts.{Puts, PutEntry};

use tables::{FreeRegion, Hole, LiveBuffer, Page, Pool, Zombie};
use trace::{put_byte, put_bytes, put_field};
use words::Address;

// A word, its numbers parted by tabs, and a line feed, from a place of the buffer on; the place after them.
fn put_entry(word: &[u8], numbers: &[u64], out: &mut [u8], at: usize) -> usize
    requires { at + longest_entry (length word.now) (length numbers.now) ≤ length out.old }
    ensures { PutEntry word.now numbers.now
        out.old out.new at result }
{
    let mut next = put_bytes(out, at, word);
    for number in numbers {
        next = put_field(out, next, *number);
    }
    put_byte(out, next, b'\n')
}

// What a table holds: the text of one, of so many bytes at the most.
trait Entry: Copy {
    ghost text: { Self → List ℕ };

    ghost most: { ℕ };

    // From a place of the buffer on; the place after it.
    fn put(self, out: &mut [u8], at: usize) -> usize
        requires { at + most ≤ length out.old }
        ensures { Puts most out.old out.new at result (text self) };
}

impl Entry for FreeRegion {
    ghost text = { free_entry };

    ghost most = { longest_free };

    #[tactic(auto, unfolding(crate::specs::Tables::free_entry))]
    fn put(self, out: &mut [u8], at: usize) -> usize {
        let numbers = [self.start.0, self.size, self.stream, self.id.0];
        put_entry(b"t-free", &numbers, out, at)
    }
}

impl Entry for LiveBuffer {
    ghost text = { live_entry };

    ghost most = { longest_live };

    #[tactic(auto, unfolding(crate::specs::Tables::live_entry))]
    fn put(self, out: &mut [u8], at: usize) -> usize {
        let numbers = [self.start.0, self.size, self.stream];
        put_entry(b"t-live", &numbers, out, at)
    }
}

impl Entry for Hole {
    ghost text = { hole_entry };

    ghost most = { longest_hole };

    #[tactic(auto, unfolding(crate::specs::Tables::hole_entry))]
    fn put(self, out: &mut [u8], at: usize) -> usize {
        let numbers = [self.start.0, self.size];
        put_entry(b"t-hole", &numbers, out, at)
    }
}

impl Entry for Zombie {
    ghost text = { zombie_entry };

    ghost most = { longest_zombie };

    #[tactic(auto, unfolding(crate::specs::Tables::zombie_entry))]
    fn put(self, out: &mut [u8], at: usize) -> usize {
        let numbers = [self.start.0, self.size, self.id.0];
        put_entry(b"t-zombie", &numbers, out, at)
    }
}

impl Entry for Page {
    ghost text = { page_entry };

    ghost most = { longest_page };

    #[tactic(auto, unfolding(crate::specs::Tables::page_entry))]
    fn put(self, out: &mut [u8], at: usize) -> usize {
        let numbers = [self.start.0, self.handle.0];
        put_entry(b"t-page", &numbers, out, at)
    }
}

// The base of a reservation.
impl Entry for Address {
    ghost text = { root_entry };

    ghost most = { longest_root };

    #[tactic(auto, unfolding(crate::specs::Tables::root_entry))]
    fn put(self, out: &mut [u8], at: usize) -> usize {
        let numbers = [self.0];
        put_entry(b"t-root", &numbers, out, at)
    }
}

// Of a table's cells the first `count`, as far as there are so many.
fn put_table<T: Entry>(cells: &[T], count: usize, out: &mut [u8], at: usize) -> usize
    requires { at + T.most * length cells.now ≤ length out.old }
    ensures { Puts (T.most * length cells.now) out.old out.new at result
        (joined T.text (take count cells.now)) }
{
    let shown = &cells[..count.min(cells.len())];
    let mut next = at;
    for cell in shown {
        next = cell.put(out, next);
    }
    next
}

// The tables of any pool value, from a place of the buffer on; the place after them.
pub fn put_tables(pool: Pool, out: &mut [u8], at: usize) -> usize
    requires { at + longest_tables ≤ length out.old }
    ensures { Puts longest_tables out.old out.new at result (tables_text pool) }
{
    if pool.state == 0 {
        return put_entry(b"t-none", &[], out, at);
    }
    let live = put_table(&pool.free.cells, pool.free.count, out, at);
    let holes = put_table(&pool.live.cells, pool.live.count, out, live);
    let zombies = put_table(&pool.holes.cells, pool.holes.count, out, holes);
    let pages = put_table(&pool.zombies.cells, pool.zombies.count, out, zombies);
    let roots = put_table(&pool.pages.cells, pool.pages.count, out, pages);
    let counter = put_table(&pool.roots.cells, pool.roots.count, out, roots);
    let numbers = [pool.counter];
    put_entry(b"t-counter", &numbers, out, counter)
}
