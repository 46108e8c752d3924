// What an unmap, an access and the result of a malloc are rejected for: R4, R6, R7.
#![tactic(auto, using(crate::proofs::Told::told), unfolding(crate::specs::Reasons::IsTrue, crate::specs::Seen::judge_seen))]

ghost use Rattle.judge_reasons.specs.Reasons.{IsTrue};
ghost use Rattle.judge_reasons.specs.Seen.{judge_seen};

use crate::searches::{find_twins, first_unmapped, is_mapped_to, is_of_size};
use crate::{Reason, Seen};
use judge_tables::{is_clear, is_in_live, is_inside, is_mapped};
use trace::Line;

const LAST_ADDRESS: u64 = 0xffff_ffff_ffff_ffff;

// A range of whole pages: the first page that is not mapped.
fn of_pages(s: &Seen, l: Line) -> Reason
    ensures { IsTrue (judge_seen s.now) l result }
{
    let page = s.run.page;
    let address = l.first;
    let bytes = l.second;
    if page == 0 {
        return Reason::Unexplained;
    }
    let x = first_unmapped(s.mapped, address, page, bytes / page);
    if !is_inside(address, bytes, x) {
        return Reason::Unexplained;
    }
    if x % page != 0 {
        return Reason::Unexplained;
    }
    if is_mapped(s.mapped, x) {
        if LAST_ADDRESS - address < bytes {
            return Reason::BeyondLastAddress(address, bytes);
        }
        return Reason::Unexplained;
    }
    Reason::NotMapped(x)
}

// R6: a range that is not of mapped pages.
pub fn of_range(s: &Seen, l: Line) -> Reason
    ensures { IsTrue (judge_seen s.now) l result }
{
    let page = s.run.page;
    let address = l.first;
    let bytes = l.second;
    if page == 0 {
        return Reason::Unexplained;
    }
    if bytes == 0 {
        return Reason::NoBytes(address);
    }
    if bytes % page != 0 {
        return Reason::NotWhole(bytes, page);
    }
    if address % page != 0 {
        return Reason::NotAligned(address, page);
    }
    of_pages(s, l)
}

// A live buffer has an address in the range.
fn of_live(s: &Seen, l: Line) -> Reason
    ensures { IsTrue (judge_seen s.now) l result }
{
    let address = l.first;
    let bytes = l.second;
    let found = s
        .live
        .iter()
        .copied()
        .find(|b| !is_clear(address, bytes, b.start, b.size));
    if let Some(b) = found {
        if is_of_size(s.live, b.start, b.size) {
            if !is_clear(address, bytes, b.start, b.size) {
                return Reason::OverLive(b.start, b.size);
            }
        }
    }
    Reason::Unexplained
}

// R4
pub fn of_unmap(s: &Seen, l: Line) -> Reason
    ensures { IsTrue (judge_seen s.now) l result }
{
    let r = of_range(s, l);
    if let Reason::Unexplained = r {
        return of_live(s, l);
    }
    r
}

// A page at `at` in the range, and another one of its handle at `other`, there or in a live buffer.
fn of_twins(s: &Seen, l: Line, handle: u64, at: u64, other: u64) -> Reason
    ensures { IsTrue (judge_seen s.now) l result }
{
    if at != other {
        if is_inside(l.first, l.second, at) {
            if is_mapped_to(s.mapped, at, handle) {
                if is_mapped_to(s.mapped, other, handle) {
                    if is_inside(l.first, l.second, other) {
                        return Reason::HandleTwice(handle, at, other);
                    }
                    if is_in_live(s.live, other) {
                        return Reason::HandleOfLive(handle, at, other);
                    }
                }
            }
        }
    }
    Reason::Unexplained
}

// A handle under two pages.
fn of_handles(s: &Seen, l: Line) -> Reason
    ensures { IsTrue (judge_seen s.now) l result }
{
    let Some((p, twin)) = find_twins(s, l.first, l.second) else {
        return Reason::Unexplained;
    };
    of_twins(s, l, p.handle, p.at, twin.at)
}

// R7
pub fn of_malloc(s: &Seen, l: Line) -> Reason
    ensures { IsTrue (judge_seen s.now) l result }
{
    let asked = s.run.asked.first;
    let given = l.second;
    if given != asked {
        return Reason::GivenOtherSize(given, asked);
    }
    let r = of_unmap(s, l);
    if let Reason::Unexplained = r {
        return of_handles(s, l);
    }
    r
}
