// The judge's tables: their rows, the oldest first, and the questions to them. Each question looks at the newest rows first, as its definition does, and is
// equal to it.
#![tactic(auto)]

ghost use Rattle.std.specs.Prelude.{◌≡◌, ◌&&◌, ◌+◌, leb};
ghost use Rattle.lists.specs.Tests.{every};
ghost use Rattle.judge_rules.specs.Ranges.{inside, clear, pages_from};
ghost use Rattle.judge_rules.specs.Rules.{is_mapped};
ghost use Rattle.judge_tables.specs.Rows.{pages_in, Addressed, holds_no_overlap, holds_range, holds_reservation, holds_no_page, holds_buffer, holds_handle, holds_page, holds_under, holds_none, holds_address, in_buffers, holds_alone, holds_no_twins};

mod rows;

pub use rows::{Live, Page, Reservation};

const LAST_ADDRESS: u64 = 0xffff_ffff_ffff_ffff;

// The address x is one of the n from a on.
pub fn is_inside(a: u64, n: u64, x: u64) -> bool
    ensures { result ≡ inside a n x }
{
    a <= x && x - a < n
}

// The n addresses from a on and the m from b on have none in common.
pub fn is_clear(a: u64, n: u64, b: u64, m: u64) -> bool
    ensures { result ≡ clear a n b m }
{
    a <= b && n <= b - a || b <= a && m <= a - b
}

// The n addresses from a on are all among the m from b on.
pub fn is_within(a: u64, n: u64, b: u64, m: u64) -> bool
    ensures { result ≡ (leb b a && leb (a + n) (b + m)) }
{
    b <= a && a - b <= m && n <= m - (a - b)
}

// None of the n addresses from a on is in a reservation.
pub fn none_reserved(reservations: &[Reservation], a: u64, n: u64) -> bool
    ensures { result ≡ holds_no_overlap reservations.now a n }
{
    reservations
        .iter()
        .rev()
        .all(|r| is_clear(a, n, r.base, r.size))
}

// The n addresses from a on are all in one reservation.
pub fn is_reserved(reservations: &[Reservation], a: u64, n: u64) -> bool
    ensures { result ≡ holds_range reservations.now a n }
{
    reservations
        .iter()
        .rev()
        .any(|r| is_within(a, n, r.base, r.size))
}

// There is a reservation of this base and size.
pub fn has_reservation(reservations: &[Reservation], base: u64, size: u64) -> bool
    ensures { result ≡ holds_reservation reservations.now base size }
{
    reservations
        .iter()
        .rev()
        .any(|r| r.base == base && r.size == size)
}

// One of the handles is this.
pub fn is_held(held: &[u64], handle: u64) -> bool
    ensures { result ≡ holds_handle held.now handle }
{
    held.iter().rev().any(|h| *h == handle)
}

// A page is mapped at x.
pub fn is_mapped(mapped: &[Page], x: u64) -> bool
    ensures { result ≡ holds_page mapped.now x }
{
    mapped.iter().rev().any(|p| p.at == x)
}

// A page is mapped to this handle.
pub fn is_under(mapped: &[Page], handle: u64) -> bool
    ensures { result ≡ holds_under mapped.now handle }
{
    mapped.iter().rev().any(|p| p.handle == handle)
}

// No page that starts at one of the n addresses from a on is mapped.
pub fn none_mapped(mapped: &[Page], a: u64, n: u64) -> bool
    ensures { result ≡ holds_no_page mapped.now a n }
{
    mapped.iter().rev().all(|p| !is_inside(a, n, p.at))
}

// Each page starts at an address: there is nothing to do, and the proof of all_mapped reads it here.
fn see_addresses(mapped: &[Page])
    ensures { Addressed mapped.now }
{
    for p in mapped {
        let at = p.at;
        prove!(at <= LAST_ADDRESS);
    }
}

// Each of k pages from a on is mapped. None is that would begin beyond the last address.
pub fn all_mapped(mapped: &[Page], a: u64, page: u64, k: u64) -> bool
    ensures { result ≡ every (is_mapped (pages_in mapped.now)) (pages_from page a k) }
{
    let mut x = a;
    for i in 0..k {
        if !is_mapped(mapped, x) {
            return false;
        }
        if LAST_ADDRESS - x < page {
            see_addresses(mapped);
            return i + 1 == k;
        }
        x += page;
    }
    true
}

// There is a live buffer of this start, size and stream.
pub fn is_live(live: &[Live], start: u64, size: u64, stream: u64) -> bool
    ensures { result ≡ holds_buffer live.now start size stream }
{
    live.iter().rev().any(|b| b.start == start && b.size == size && b.stream == stream)
}

// No live buffer has one of the n addresses from a on.
pub fn none_live(live: &[Live], a: u64, n: u64) -> bool
    ensures { result ≡ holds_none live.now a n }
{
    live.iter().rev().all(|b| is_clear(a, n, b.start, b.size))
}

// The address x is a live buffer's.
pub fn is_in_live(live: &[Live], x: u64) -> bool
    ensures { result ≡ holds_address live.now x }
{
    live.iter().rev().any(|b| is_inside(b.start, b.size, x))
}

// The address x is one of the n from a on, or a live buffer's.
pub fn is_in_buffers(live: &[Live], a: u64, n: u64, x: u64) -> bool
    ensures { result ≡ in_buffers live.now a n x }
{
    is_inside(a, n, x) || is_in_live(live, x)
}

// No other page in these buffers has the handle of p. The handles differ mostly, so they are looked at first.
fn is_alone(mapped: &[Page], live: &[Live], a: u64, n: u64, p: Page) -> bool
    ensures { result ≡ holds_alone mapped.now live.now a n p }
{
    mapped.iter().rev().all(|q| q.handle != p.handle
        || q.at == p.at
        || !is_in_buffers(live, a, n, q.at))
}

// No page among the n addresses from a on has the handle of another there or in a live buffer.
pub fn no_handle_twice(mapped: &[Page], live: &[Live], a: u64, n: u64) -> bool
    ensures { result ≡ holds_no_twins mapped.now live.now a n }
{
    mapped.iter().rev().all(|p| !is_inside(a, n, p.at) || is_alone(mapped, live, a, n, *p))
}
