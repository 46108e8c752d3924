// docs/RULES.md 5.3, 5.4: the roots tested, and how much of a range is in them.
ghost use Rattle.std.specs.Prelude.{◌≡◌, true, ◌&&◌, ◌+◌, ◌-◌, ◌≤◌, ◌<◌, leb};
ghost use Rattle.lists.specs.Tests.{every, pairwise};
ghost use Rattle.tables.specs.Bounds.{END, ROOTS, VA};
ghost use Rattle.tables.specs.Values.{roots_of};
ghost use Rattle.tables.specs.WellFormed.{range, common, whole};
ghost use Rattle.tables.specs.TakeRange.{apart};
ghost use Rattle.pool_soundness.specs.Tests.{is_inside, roots_pass};
ghost use Rattle.pool_soundness.specs.Promises.{Bounded};
ghost use Rattle.pool_soundness.specs.Walks.{range_of};

use crate::numbers::is_whole;
use crate::walk::Front;
use plain_tables::roots::is_apart;
use tables::{Pool, Roots};

// Roots aligned, nonzero, ending at or below 2^63.
fn roots_aligned(roots: &Roots, page: u64, va: u64) -> bool
    requires { (roots.now.count ≤ ROOTS) × ((0 < page) × (va ≤ VA)) }
    ensures { result ≡ every (λ a. whole page a.0 && leb a.0 (END - va)) (roots_of roots.now) }
{
    roots
        .entries()
        .iter()
        .all(|a| is_whole(page, a.0) && a.0 <= Pool::END - va)
}

// Roots disjoint: each is apart from those after it.
fn roots_disjoint(roots: &Roots, va: u64) -> bool
    requires { roots.now.count ≤ ROOTS }
    ensures { result ≡ pairwise (λ a b. apart va a.0 b.0) (roots_of roots.now) }
{
    let mut left = roots.entries();
    while let Some((a, rest)) = left.split_first() {
        if !rest.iter().all(|b| is_apart(va, a.0, b.0)) {
            return false;
        }
        left = rest;
    }
    true
}

// Roots disjoint, aligned, nonzero, ending at or below 2^63.
pub fn roots_sound(roots: &Roots, page: u64, va: u64) -> bool
    requires { (roots.now.count ≤ ROOTS) × ((0 < page) × (va ≤ VA)) }
    ensures { result ≡ roots_pass page va (roots_of roots.now) }
{
    roots_disjoint(roots, va) && roots_aligned(roots, page, va)
}

// How many addresses a range and the one of `va` bytes from `a` have in common.
fn common_bytes(x: Front, a: u64, va: u64) -> u64
    requires { (x.from + x.size ≤ END) × (a + va ≤ END) }
    ensures { result ≡ common (range_of x) (range a va) }
{
    let end = (x.from + x.size).min(a + va);
    end.saturating_sub(x.from.max(a))
}

// Whether all addresses of a range are in the roots. As they are disjoint, no sum of what is in common is above the size.
pub fn is_inside(x: Front, roots: &Roots, va: u64) -> bool
    requires { Bounded x roots.now va }
    ensures { result ≡ is_inside va (roots_of roots.now) (range_of x) }
{
    let mut sum = 0;
    for a in roots.entries() {
        sum += common_bytes(x, a.0, va);
        if sum == x.size {
            return true;
        }
    }
    false
}
