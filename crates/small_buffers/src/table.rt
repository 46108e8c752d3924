// The small buffers, in the order in which they came. No call of the layer's counts on the cells past the count of a table that comes to it.
ghost use Rattle.std.specs.Prelude.{◌≡◌, ◌&&◌, ◌||◌, ◌∷◌, [], ◌++◌, ◌+◌, ◌≤◌, ◌<◌, ltb, leb, eqb};
ghost use Rattle.lists.specs.Tests.{any};
ghost use Rattle.lists.specs.Order.{without};
ghost use Rattle.tables.specs.Bounds.{ROOTS};
ghost use Rattle.tables.specs.Values.{roots_of};
ghost use Rattle.manager_rules.specs.Values.{SMALLS, small_of, pack_small};
ghost use Rattle.manager_rules.specs.Malloc.{in_roots};

use cells::Table;
use manager_rules::{SmallBuffer, SmallBuffers};
use tables::Roots;
use words::Address;

// One more, behind the others.
pub fn with_small(small: &mut SmallBuffers, b: SmallBuffer)
    requires { small.old.count < SMALLS }
    ensures { small.new ≡ pack_small (small_of small.old ++ b ∷ []) }
{
    small.clear_rest();
    small.push(b);
}

// Without the one at a pointer, the others in their order.
pub fn without_small(small: &mut SmallBuffers, pointer: u64)
    requires { small.old.count ≤ SMALLS }
    ensures { small.new ≡ pack_small (without (λ b. b.pointer) pointer (small_of small.old)) }
{
    let mut others = Table::empty();
    for b in small.entries() {
        if b.pointer != pointer {
            others.push(*b);
        }
    }
    *small = others;
}

// Inside a range. The difference is tested: the range could end beyond the largest number.
fn is_inside(base: u64, size: u64, pointer: u64) -> bool
    ensures { result ≡ (leb base pointer && ltb pointer (base + size)) }
{
    base <= pointer && pointer - base < size
}

// At one of the buffers.
fn is_held(small: &[SmallBuffer], pointer: u64) -> bool
    ensures { result ≡ any (λ b. eqb b.pointer pointer) small.now }
{
    small.iter().any(|b| b.pointer == pointer)
}

// Inside one of the roots, each of `va` bytes.
fn is_in_roots(roots: &[Address], va: u64, pointer: u64) -> bool
    ensures { result ≡ in_roots va roots.now pointer }
{
    roots.iter().any(|base| is_inside(base.0, va, pointer))
}

// A pointer that the driver can't have given truly: 0, one that is held, or one inside a root.
pub fn is_incredible(small: &SmallBuffers, roots: &Roots, va: u64, pointer: u64) -> bool
    requires { (small.now.count ≤ SMALLS) × (roots.now.count ≤ ROOTS) }
    ensures { result ≡ (eqb pointer 0 || (any (λ b. eqb b.pointer pointer) (small_of small.now) || in_roots va (roots_of roots.now) pointer)) }
{
    pointer == 0 || is_held(small.entries(), pointer) || is_in_roots(roots.entries(), va, pointer)
}
