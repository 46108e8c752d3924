// docs/RULES.md 12.6: what the layer tests of itself, of any value: counts, cells and sums of sizes are whatever they are.
ghost use Rattle.std.specs.Prelude.{◌≡◌, ◌&&◌, not, map, ◌+◌, ◌≤◌, ltb, leb, eqb};
ghost use Rattle.lists.specs.Tests.{every, distinct};
ghost use Rattle.lists.specs.Walks.{sum};
ghost use Rattle.tables.specs.Values.{live_of};
ghost use Rattle.manager_rules.specs.Values.{SMALLS, small_of};
ghost use Rattle.manager_rules.specs.WellFormed.{own_sound, own_kept};
ghost use Rattle.small_buffers.specs.Promises.{TakenOff};

use manager_rules::{Manager, SmallBuffer};
use tables::LiveBuffer;

// None of these buffers is at this pointer.
fn is_free(pointer: u64, small: &[SmallBuffer]) -> bool
    ensures { result ≡ every (λ b. not (eqb pointer b.pointer)) small.now }
{
    small.iter().all(|b| pointer != b.pointer)
}

// No pointer is 0, and none is held twice.
fn pointers_good(small: &[SmallBuffer]) -> bool
    ensures { result ≡ (every (λ b. not (eqb b.pointer 0)) small.now && distinct (map (λ b. b.pointer) small.now)) }
{
    for (at, b) in small.iter().enumerate() {
        if b.pointer == 0 || !is_free(b.pointer, &small[at + 1..]) {
            return false;
        }
    }
    true
}

// Each has at least a byte, and fewer than a page.
fn sizes_small(small: &[SmallBuffer], page: u64) -> bool
    ensures { result ≡ every (λ b. leb 1 b.size && ltb b.size page) small.now }
{
    small.iter().all(|b| 1 <= b.size && b.size < page)
}

// What is left of a number of bytes without all of these buffers. Their sizes are taken off one by one: the sum could be beyond the largest number.
fn left_of(bytes: u64, small: &[SmallBuffer], live: &[LiveBuffer]) -> Option<u64>
    ensures { TakenOff bytes (sum (λ b. b.size) small.now + sum (λ b. b.size) live.now) result }
{
    let sizes = small.iter().map(|b| b.size);
    let mut all = sizes.chain(live.iter().map(|b| b.size));
    all.try_fold(bytes, |left, size| left.checked_sub(size))
}

// What is counted is what is held. The count of live buffers may be beyond their cells here.
fn is_current_held(m: &Manager) -> bool
    requires { m.now.small.count ≤ SMALLS }
    ensures { result ≡ eqb m.now.current (sum (λ b. b.size) (small_of m.now.small) + sum (λ b. b.size) (live_of m.now.pool.live)) }
{
    let cells = &m.pool.live.cells[..];
    let live = &cells[..m.pool.live.count.min(cells.len())];
    left_of(m.current, m.small.entries(), live) == Some(0)
}

fn own_sound(m: &Manager) -> bool
    requires { m.now.small.count ≤ SMALLS }
    ensures { result ≡ own_sound m.now }
{
    let small = m.small.entries();
    pointers_good(small)
        && sizes_small(small, m.pool.page)
        && is_current_held(m)
        && m.current <= m.highest
}

// Of a stopped layer only the count is tested.
pub fn own_kept(m: &Manager) -> bool
    ensures { result ≡ own_kept m.now }
{
    m.small.count <= Manager::SMALLS && (m.pool.state == Manager::STOPPED || own_sound(m))
}
