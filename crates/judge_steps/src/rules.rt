// The rules R1 to R10, over the tables as they stand. Each is equal to its definition.
ghost use Rattle.std.specs.Prelude.{◌≡◌, ◌<◌};
ghost use Rattle.judge_steps.specs.Tests.{tests_whole, tests_credible, tests_R1, tests_R2, tests_R3, tests_R4, tests_R5, tests_R7, tests_R8, tests_R10, tests_rising, tests_known};

use crate::State;
use judge_tables::{
    all_mapped, has_reservation, is_held, is_live, is_mapped, is_reserved, is_under,
    no_handle_twice, none_live, none_mapped, none_reserved,
};

// Where a reservation may end at the latest, 2^63.
const END: u64 = 0x8000_0000_0000_0000;

impl State {
    // A range of mapped pages (docs/RULES.md 8.4).
    pub(crate) fn is_whole(&self, address: u64, bytes: u64) -> bool
        requires { 0 < self.now.run.page }
        ensures { result ≡ tests_whole self.now address bytes }
    {
        let page = self.run.page;
        bytes != 0
            && bytes % page == 0
            && address % page == 0
            && all_mapped(&self.mapped, address, page, bytes / page)
    }

    fn is_credible(&self, base: u64, size: u64) -> bool
        requires { 0 < self.now.run.page }
        ensures { result ≡ tests_credible self.now base size }
    {
        base != 0
            && base % self.run.page == 0
            && size <= END
            && base <= END - size
            && none_reserved(&self.reservations, base, size)
    }

    pub(crate) fn keeps_r1(&self, base: u64, size: u64) -> bool
        requires { 0 < self.now.run.page }
        ensures { result ≡ tests_R1 self.now base size }
    {
        self.is_credible(base, size)
            && size == self.run.va
            && size != 0
            && size % self.run.page == 0
    }

    pub(crate) fn keeps_r2(&self, handle: u64) -> bool
        ensures { result ≡ tests_R2 self.now handle }
    {
        !is_held(&self.held, handle)
    }

    pub(crate) fn keeps_r3(&self, address: u64, handle: u64) -> bool
        requires { 0 < self.now.run.page }
        ensures { result ≡ tests_R3 self.now address handle }
    {
        address % self.run.page == 0
            && is_reserved(&self.reservations, address, self.run.page)
            && !is_mapped(&self.mapped, address)
            && is_held(&self.held, handle)
    }

    pub(crate) fn keeps_r4(&self, address: u64, bytes: u64) -> bool
        requires { 0 < self.now.run.page }
        ensures { result ≡ tests_R4 self.now address bytes }
    {
        self.is_whole(address, bytes) && none_live(&self.live, address, bytes)
    }

    pub(crate) fn keeps_r5(&self, handle: u64) -> bool
        ensures { result ≡ tests_R5 self.now handle }
    {
        is_held(&self.held, handle) && !is_under(&self.mapped, handle)
    }

    pub(crate) fn keeps_r7(&self, start: u64, size: u64) -> bool
        requires { 0 < self.now.run.page }
        ensures { result ≡ tests_R7 self.now start size }
    {
        size == self.run.asked.first
            && self.is_whole(start, size)
            && none_live(&self.live, start, size)
            && no_handle_twice(&self.mapped, &self.live, start, size)
    }

    pub(crate) fn keeps_r8(&self, size: u64, stream: u64) -> bool
        ensures { result ≡ tests_R8 self.now size stream }
    {
        is_live(&self.live, self.run.asked.first, size, stream)
    }

    // R9, of an id that is recorded, and of one that is asked or waited for.
    pub(crate) fn is_rising(&self, id: u64) -> bool
        ensures { result ≡ tests_rising self.now.last id }
    {
        match self.last {
            None => true,
            Some(last) => last < id,
        }
    }

    pub(crate) fn is_known(&self, id: u64) -> bool
        ensures { result ≡ tests_known self.now.last id }
    {
        match self.last {
            None => false,
            Some(last) => id <= last,
        }
    }

    pub(crate) fn keeps_r10(&self, base: u64, size: u64) -> bool
        ensures { result ≡ tests_R10 self.now base size }
    {
        has_reservation(&self.reservations, base, size) && none_mapped(&self.mapped, base, size)
    }
}
