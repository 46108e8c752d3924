// A free region taken out of the table, what is left of it put in, and both at once where it stands.
ghost use Rattle.std.specs.Prelude.{◌≡◌, ◌+◌, ◌-◌, ◌≤◌, ◌<◌};
ghost use Rattle.lists.specs.Order.{Rises};
ghost use Rattle.tables.specs.Bounds.{END, SPANS};
ghost use Rattle.tables.specs.Values.{region, free_of, pack_free};
ghost use Rattle.tables.specs.Kept.{KeptFree};
ghost use Rattle.tables.specs.InsertFree.{from, upto, without_free, put_rest};
ghost use Rattle.regions.specs.Cutting.{region_at, cut_free, Cuttable};

use tables::{FreeRegion, FreeRegions};
use words::Address;

// Without the region that starts at an address; where none starts there, the table as it is.
pub fn without_free(free: &mut FreeRegions, start: Address)
    requires { KeptFree free.old × Rises from 0 (free_of free.old) }
    ensures { free.new ≡ pack_free (without_free start.0 (free_of free.old)) }
{
    if let Some(at) = free.find(start.0) {
        free.remove_at(at);
    }
}

// What the first `taken` bytes leave of a region, on its stream and with its id.
fn rest_of(r: FreeRegion, taken: u64) -> FreeRegion
    requires { (taken ≤ r.size) × (upto r ≤ END) }
    ensures { result ≡ region (from r + taken) (r.size - taken) r.stream r.id.0 }
{
    FreeRegion {
        start: Address(r.start.0 + taken),
        size: r.size - taken,
        ..r
    }
}

// What the first `taken` bytes leave of the region `r` stays free.
pub fn put_rest(free: &mut FreeRegions, taken: u64, r: FreeRegion)
    requires { (KeptFree free.old × (free.old.count < SPANS)) × ((taken ≤ r.size) × (upto r ≤ END)) }
    ensures { free.new ≡ pack_free (put_rest taken r (free_of free.old)) }
{
    if taken < r.size {
        free.put(rest_of(r, taken));
    }
}

// The first `taken` bytes of the region at a place are taken; what they leave stays free. No region starts within another: the rest's place is the region's,
// so no place is looked for.
// kept: another rule than a hole's (`cut_free`, `cut_hole`); one function for both would take a trait of sizes, and is no plainer.
pub fn cut_region(free: &mut FreeRegions, at: usize, taken: u64)
    requires { Cuttable free.old at taken }
    ensures { free.new ≡ pack_free (cut_free taken (region_at free.old at) (free_of free.old)) }
{
    let r = free.cells[at];
    if taken < r.size {
        free.cells[at] = rest_of(r, taken);
    } else {
        free.remove_at(at);
    }
}
