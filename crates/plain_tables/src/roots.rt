// Whether a new root may stand beside the others.
ghost use Rattle.std.specs.Prelude.{◌≡◌, ◌≤◌, ◌<◌};
ghost use Rattle.tables.specs.Bounds.{VA};
ghost use Rattle.tables.specs.Values.{roots_of};
ghost use Rattle.tables.specs.Kept.{KeptRoots};
ghost use Rattle.tables.specs.TakeRange.{apart, credible_for};

use tables::{Pool, Roots};
use words::Address;

// Whether two roots have no address in common. The difference is tested: the sum could pass the largest number.
pub fn is_apart(va: u64, a: u64, b: u64) -> bool
    ensures { result ≡ apart va a b }
{
    va <= a.abs_diff(b)
}

// docs/RULES.md 4.4: whether the base of a new root is to be believed.
pub fn is_credible(roots: &Roots, base: Address, page: u64, va: u64) -> bool
    requires { (KeptRoots roots.now × (0 < page)) × (va ≤ VA) }
    ensures { result ≡ credible_for page va base.0 (roots_of roots.now) }
{
    base.0 != 0
        && base.0 % page == 0
        && base.0 <= Pool::END - va
        && roots.entries().iter().all(|a| is_apart(va, base.0, a.0))
}
