// Rows of the judge's tables that are looked for, and tests of the tables. Nothing is promised of what a search finds: whoever says it tests it first.
ghost use Rattle.std.specs.Prelude.{◌≡◌};
ghost use Rattle.judge_reasons.specs.Tests.{maps_to, has_start, has_size};

use crate::Seen;
use judge_tables::{Live, Page, is_in_buffers, is_inside, is_mapped};

// The page at an address is mapped to this handle.
pub fn is_mapped_to(mapped: &[Page], at: u64, handle: u64) -> bool
    ensures { result ≡ maps_to mapped.now at handle }
{
    mapped
        .iter()
        .rev()
        .any(|p| p.at == at && p.handle == handle)
}

// A live buffer starts here; and is of this size.
pub fn is_start(live: &[Live], start: u64) -> bool
    ensures { result ≡ has_start live.now start }
{
    live.iter().rev().any(|b| b.start == start)
}

pub fn is_of_size(live: &[Live], start: u64, size: u64) -> bool
    ensures { result ≡ has_size live.now start size }
{
    live.iter()
        .rev()
        .any(|b| b.start == start && b.size == size)
}

// The first of k pages from a on that is not mapped; a where each is.
pub fn first_unmapped(mapped: &[Page], a: u64, page: u64, k: u64) -> u64 {
    let mut x = a;
    for _ in 0..k {
        if !is_mapped(mapped, x) {
            return x;
        }
        let Some(next) = x.checked_add(page) else {
            return a;
        };
        x = next;
    }
    a
}

// Another page with the handle of p, among the n addresses from a on or in a live buffer.
fn find_twin(s: &Seen, a: u64, n: u64, p: Page) -> Option<Page> {
    s.mapped.iter().copied().find(|q| q.handle == p.handle
        && q.at != p.at
        && is_in_buffers(s.live, a, n, q.at))
}

// A page among the n addresses from a on that has such a twin, and the twin.
pub fn find_twins(s: &Seen, a: u64, n: u64) -> Option<(Page, Page)> {
    for p in s.mapped.iter() {
        if is_inside(a, n, p.at) {
            if let Some(twin) = find_twin(s, a, n, *p) {
                return Some((*p, twin));
            }
        }
    }
    None
}
