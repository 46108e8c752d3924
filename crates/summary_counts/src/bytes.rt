// Amounts, from the judge's tables.
ghost use Rattle.std.specs.Prelude.{◌≡◌, ◌*◌};
ghost use Rattle.lists.specs.Walks.{sum};
ghost use Rattle.judge_tables.specs.Rows.{pages_in, live_in};
ghost use Rattle.summary_counts.specs.Counts.{capped, zombies};

use judge_tables::{Live, Page, is_under};

// The bytes of the live buffers.
pub(crate) fn live_bytes(live: &[Live]) -> u64
    ensures { result ≡ capped (sum (λ b. b.size) (live_in live.now)) }
{
    live.iter()
        .rev()
        .fold(0, |total: u64, buffer| total.saturating_add(buffer.size))
}

// The bytes of so many mapped pages.
pub(crate) fn mapped_bytes(page: u64, count: usize) -> u64
    ensures { result ≡ capped (page * count) }
{
    page.saturating_mul(count as u64)
}

// The mapped pages that are left behind by a move: an older one than another of its handle.
pub fn zombie_pages(mapped: &[Page]) -> usize
    ensures { result ≡ zombies (pages_in mapped.now) }
{
    let mut zombies = 0;
    let mut newest = mapped;
    // kept: each row is held against those before it, which no iterator hands out.
    while let Some((page, older)) = newest.split_last() {
        if is_under(older, page.handle) {
            zombies += 1;
        }
        newest = older;
    }
    zombies
}
