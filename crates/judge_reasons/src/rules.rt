// What a line is rejected for by R1, R2, R3, R5, R8, R9, R10. What a search finds is tested again before it is told.
#![tactic(auto, using(crate::proofs::Told::told), unfolding(crate::specs::Reasons::IsTrue, crate::specs::Seen::judge_seen))]

ghost use Rattle.judge_reasons.specs.Reasons.{IsTrue};
ghost use Rattle.judge_reasons.specs.Seen.{judge_seen};

use crate::searches::{is_mapped_to, is_of_size, is_start};
use crate::{Reason, Seen};
use judge_tables::{
    has_reservation, is_clear, is_held, is_inside, is_live, is_mapped, is_reserved,
};
use trace::Line;

// Where a reservation may end at the latest, 2^63.
const END: u64 = 0x8000_0000_0000_0000;

// R1: a reservation that is held lies across the new one, or the size is not that of the open.
fn of_neighbours(s: &Seen, l: Line) -> Reason
    ensures { IsTrue (judge_seen s.now) l result }
{
    let base = l.first;
    let size = l.second;
    let found = s
        .reservations
        .iter()
        .copied()
        .find(|r| !is_clear(base, size, r.base, r.size));
    if let Some(r) = found {
        if has_reservation(s.reservations, r.base, r.size) {
            if !is_clear(base, size, r.base, r.size) {
                return Reason::Overlaps(r.base, r.size);
            }
        }
    }
    let va = s.run.va;
    if size != va {
        return Reason::OtherSize(size, va);
    }
    Reason::Unexplained
}

// R1
pub fn of_reserve(s: &Seen, l: Line) -> Reason
    ensures { IsTrue (judge_seen s.now) l result }
{
    let base = l.first;
    let size = l.second;
    let page = s.run.page;
    if base == 0 {
        return Reason::BaseZero;
    }
    if page == 0 {
        return Reason::Unexplained;
    }
    if base % page != 0 {
        return Reason::NotAligned(base, page);
    }
    if END < size || END - size < base {
        return Reason::EndsBeyond(base, size);
    }
    if size == 0 {
        return Reason::NoBytes(base);
    }
    if size % page != 0 {
        return Reason::NotWhole(size, page);
    }
    of_neighbours(s, l)
}

// R2
pub fn of_create(s: &Seen, l: Line) -> Reason
    ensures { IsTrue (judge_seen s.now) l result }
{
    let handle = l.first;
    if is_held(s.held, handle) {
        return Reason::AlreadyHeld(handle);
    }
    Reason::Unexplained
}

// R3: of a page in a reservation.
fn of_page(s: &Seen, l: Line) -> Reason
    ensures { IsTrue (judge_seen s.now) l result }
{
    let address = l.first;
    let handle = l.second;
    let found = s.mapped.iter().copied().find(|p| p.at == address);
    if let Some(p) = found {
        if is_mapped_to(s.mapped, address, p.handle) {
            return Reason::AlreadyMapped(address, p.handle);
        }
    }
    if is_held(s.held, handle) {
        return Reason::Unexplained;
    }
    Reason::HandleNotHeld(handle)
}

// R3
pub fn of_map(s: &Seen, l: Line) -> Reason
    ensures { IsTrue (judge_seen s.now) l result }
{
    let page = s.run.page;
    let address = l.first;
    if page == 0 {
        return Reason::Unexplained;
    }
    if address % page != 0 {
        return Reason::NotAligned(address, page);
    }
    if is_reserved(s.reservations, address, page) {
        return of_page(s, l);
    }
    Reason::InNoReservation(address)
}

// R5
pub fn of_release(s: &Seen, l: Line) -> Reason
    ensures { IsTrue (judge_seen s.now) l result }
{
    let handle = l.first;
    if !is_held(s.held, handle) {
        return Reason::HandleNotHeld(handle);
    }
    let found = s.mapped.iter().copied().find(|p| p.handle == handle);
    if let Some(p) = found {
        if is_mapped_to(s.mapped, p.at, handle) {
            return Reason::StillMapped(handle, p.at);
        }
    }
    Reason::Unexplained
}

// R8
pub fn of_free(s: &Seen, l: Line) -> Reason
    ensures { IsTrue (judge_seen s.now) l result }
{
    let address = s.run.asked.first;
    let size = l.first;
    let stream = l.second;
    if !is_start(s.live, address) {
        return Reason::NotLive(address);
    }
    let found = s.live.iter().copied().find(|b| b.start == address);
    let Some(b) = found else {
        return Reason::Unexplained;
    };
    if size != b.size {
        if is_of_size(s.live, address, b.size) {
            return Reason::FreedOtherSize(address, size, b.size);
        }
        return Reason::Unexplained;
    }
    if stream != b.stream {
        if is_live(s.live, address, size, b.stream) {
            return Reason::FreedOtherStream(address, stream, b.stream);
        }
    }
    Reason::Unexplained
}

// R9
pub fn of_event(s: &Seen, l: Line) -> Reason
    ensures { IsTrue (judge_seen s.now) l result }
{
    let id = l.first;
    let Some(last) = s.last else {
        return Reason::NothingRecorded(id);
    };
    if l.kind == Line::RECORD {
        if id <= last {
            return Reason::NotAbove(id, last);
        }
        return Reason::Unexplained;
    }
    if last < id {
        return Reason::AboveLast(id, last);
    }
    Reason::Unexplained
}

// R10
pub fn of_giveback(s: &Seen, l: Line) -> Reason
    ensures { IsTrue (judge_seen s.now) l result }
{
    let base = l.first;
    let size = l.second;
    if !has_reservation(s.reservations, base, size) {
        return Reason::NotReserved(base, size);
    }
    let found = s
        .mapped
        .iter()
        .copied()
        .find(|p| is_inside(base, size, p.at));
    if let Some(p) = found {
        if is_inside(base, size, p.at) {
            if is_mapped(s.mapped, p.at) {
                return Reason::PageInside(p.at);
            }
        }
    }
    Reason::Unexplained
}
