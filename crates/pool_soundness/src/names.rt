// docs/RULES.md 5.5, 5.6: handles and ids.
ghost use Rattle.std.specs.Prelude.{◌≡◌, map, ℕ, ◌≤◌, ltb};
ghost use Rattle.std.specs.Fn.{FnReturnsAt};
ghost use Rattle.lists.specs.Tests.{every, distinct};
ghost use Rattle.cells.specs.Table.{entries};
ghost use Rattle.tables.specs.Bounds.{PAGES, SPANS, ZOMBIES};
ghost use Rattle.tables.specs.Values.{free_of, zombies_of, pages_of};
ghost use Rattle.pool_soundness.specs.Tests.{names_pass};

use crate::numbers::is_distinct;
use cells::{Entry, Table};
use tables::{FreeRegions, Pages, Zombies};

// Whether `number` gives no number twice over a table's entries.
fn numbers_differ<T: Entry, const N: usize, F: Fn(&T) -> u64>(
    table: &Table<T, N>,
    number: F,
) -> bool
    requires count_bound { (table.now.count ≤ N) × (N ≤ PAGES) }
    requires callable { F.IsAlwaysCallable number }
    ensures { (key : T → ℕ) → ((x : T) (n : ℕ) → FnReturnsAt F.Fn number x n → n ≡ key x) → result ≡ distinct (map key (entries table.now)) }
{
    let entries = table.entries();
    let mut numbers = [0; N];
    for (i, entry) in entries.iter().enumerate() {
        numbers[i] = number(entry);
    }
    is_distinct(&numbers[..entries.len()])
}

// Handles distinct.
fn handles_distinct(pages: &Pages) -> bool
    requires { pages.now.count ≤ PAGES }
    ensures { result ≡ distinct (map (λ g. g.handle.0) (pages_of pages.now)) }
{
    numbers_differ(pages, |g| g.handle.0)
}

// Free ids distinct.
fn free_ids_distinct(free: &FreeRegions) -> bool
    requires { free.now.count ≤ SPANS }
    ensures { result ≡ distinct (map (λ f. f.id.0) (free_of free.now)) }
{
    numbers_differ(free, |f| f.id.0)
}

fn free_ids_below(free: &FreeRegions, counter: u64) -> bool
    requires { free.now.count ≤ SPANS }
    ensures { result ≡ every (λ f. ltb f.id.0 counter) (free_of free.now) }
{
    free.entries().iter().all(|f| f.id.0 < counter)
}

fn zombie_ids_below(zombies: &Zombies, counter: u64) -> bool
    requires { zombies.now.count ≤ ZOMBIES }
    ensures { result ≡ every (λ z. ltb z.id.0 counter) (zombies_of zombies.now) }
{
    zombies.entries().iter().all(|z| z.id.0 < counter)
}

// No handle and no free id stands twice, and the counter is above every id.
pub fn names_sound(free: &FreeRegions, zombies: &Zombies, pages: &Pages, counter: u64) -> bool
    requires { (free.now.count ≤ SPANS) × ((zombies.now.count ≤ ZOMBIES) × (pages.now.count ≤ PAGES)) }
    ensures { result ≡ names_pass (free_of free.now) (zombies_of zombies.now) (pages_of pages.now) counter }
{
    handles_distinct(pages)
        && free_ids_distinct(free)
        && free_ids_below(free, counter)
        && zombie_ids_below(zombies, counter)
}
