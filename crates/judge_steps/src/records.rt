// What a record of code 0 and a result of answer 0 do: the rule first, then the size, then the change.
ghost use Rattle.std.specs.Prelude.{◌<◌};
ghost use Rattle.words.specs.declared.Word.TheVariants.{Reserve, Create, Map, Access, Unmap, Release, Record as RecordEvent, Asked as AskedFor, Giveback};
ghost use Rattle.judge_rules.specs.declared.Call.TheVariants.{Malloc, Free};
ghost use Rattle.judge_steps.specs.Promises.{Records, Answers, Stays};

use crate::{Fault, State};
use judge_rules::Verdict;
use judge_tables::{Live, Page, Reservation, is_inside};
use words::Word;

impl State {
    fn on_reserve(&mut self, base: u64, size: u64) -> Result<(), Fault>
        requires { 0 < self.old.run.page }
        ensures does { Records Reserve self.old base size result self.new }
        ensures stays { Stays self.old result self.new }
    {
        if !self.keeps_r1(base, size) {
            return Err(Fault::Broken(Verdict::R1));
        }
        if self.reservations.is_full() {
            return Err(Fault::Beyond(Verdict::RESERVATIONS));
        }
        self.reservations.push(Reservation { base, size });
        Ok(())
    }

    fn on_create(&mut self, handle: u64, bytes: u64) -> Result<(), Fault>
        ensures does { Records Create self.old handle bytes result self.new }
        ensures stays { Stays self.old result self.new }
    {
        if !self.keeps_r2(handle) {
            return Err(Fault::Broken(Verdict::R2));
        }
        if self.held.is_full() {
            return Err(Fault::Beyond(Verdict::HELD_HANDLES));
        }
        self.held.push(handle);
        Ok(())
    }

    fn on_map(&mut self, address: u64, handle: u64) -> Result<(), Fault>
        requires { 0 < self.old.run.page }
        ensures does { Records Map self.old address handle result self.new }
        ensures stays { Stays self.old result self.new }
    {
        if !self.keeps_r3(address, handle) {
            return Err(Fault::Broken(Verdict::R3));
        }
        if self.mapped.is_full() {
            return Err(Fault::Beyond(Verdict::MAPPED_PAGES));
        }
        self.mapped.push(Page {
            at: address,
            handle,
        });
        Ok(())
    }

    fn on_access(&self, address: u64, bytes: u64) -> Result<(), Fault>
        requires { 0 < self.now.run.page }
        ensures { Records Access self.now address bytes result self.now }
    {
        if !self.is_whole(address, bytes) {
            return Err(Fault::Broken(Verdict::R6));
        }
        Ok(())
    }

    fn on_unmap(&mut self, address: u64, bytes: u64) -> Result<(), Fault>
        requires { 0 < self.old.run.page }
        ensures does { Records Unmap self.old address bytes result self.new }
        ensures stays { Stays self.old result self.new }
    {
        if !self.keeps_r4(address, bytes) {
            return Err(Fault::Broken(Verdict::R4));
        }
        self.mapped.retain(|p| !is_inside(address, bytes, p.at));
        Ok(())
    }

    fn on_release(&mut self, handle: u64, zero: u64) -> Result<(), Fault>
        ensures does { Records Release self.old handle zero result self.new }
        ensures stays { Stays self.old result self.new }
    {
        if !self.keeps_r5(handle) {
            return Err(Fault::Broken(Verdict::R5));
        }
        self.held.retain(|h| *h != handle);
        Ok(())
    }

    fn on_event(&mut self, id: u64, stream: u64) -> Result<(), Fault>
        ensures does { Records RecordEvent self.old id stream result self.new }
        ensures stays { Stays self.old result self.new }
    {
        if !self.is_rising(id) {
            return Err(Fault::Broken(Verdict::R9));
        }
        self.last = Some(id);
        Ok(())
    }

    fn on_asked(&self, id: u64, second: u64) -> Result<(), Fault>
        ensures { Records AskedFor self.now id second result self.now }
    {
        if !self.is_known(id) {
            return Err(Fault::Broken(Verdict::R9));
        }
        Ok(())
    }

    fn on_giveback(&mut self, base: u64, size: u64) -> Result<(), Fault>
        ensures does { Records Giveback self.old base size result self.new }
        ensures stays { Stays self.old result self.new }
    {
        if !self.keeps_r10(base, size) {
            return Err(Fault::Broken(Verdict::R10));
        }
        self.reservations.retain(|r| r.base != base);
        Ok(())
    }

    pub(crate) fn on_malloc(&mut self, start: u64, size: u64) -> Result<(), Fault>
        requires { 0 < self.old.run.page }
        ensures does { Answers Malloc self.old start size result self.new }
        ensures stays { Stays self.old result self.new }
    {
        if !self.keeps_r7(start, size) {
            return Err(Fault::Broken(Verdict::R7));
        }
        if self.live.is_full() {
            return Err(Fault::Beyond(Verdict::LIVE_BUFFERS));
        }
        let stream = self.run.asked.second;
        self.live.push(Live {
            start,
            size,
            stream,
        });
        Ok(())
    }

    pub(crate) fn on_free(&mut self, size: u64, stream: u64) -> Result<(), Fault>
        ensures does { Answers Free self.old size stream result self.new }
        ensures stays { Stays self.old result self.new }
    {
        if !self.keeps_r8(size, stream) {
            return Err(Fault::Broken(Verdict::R8));
        }
        let start = self.run.asked.first;
        self.live.retain(|b| b.start != start);
        Ok(())
    }

    // A record of code 0.
    pub(crate) fn on_record(&mut self, word: Word, a: u64, b: u64) -> Result<(), Fault>
        requires { 0 < self.old.run.page }
        ensures does { Records word self.old a b result self.new }
        ensures stays { Stays self.old result self.new }
    {
        match word {
            Word::Reserve => self.on_reserve(a, b),
            Word::Create => self.on_create(a, b),
            Word::Map => self.on_map(a, b),
            Word::Access => self.on_access(a, b),
            Word::Unmap => self.on_unmap(a, b),
            Word::Release => self.on_release(a, b),
            Word::Record => self.on_event(a, b),
            Word::Asked => self.on_asked(a, b),
            Word::Wait => self.on_asked(a, b),
            Word::Sync => Ok(()),
            Word::Giveback => self.on_giveback(a, b),
        }
    }
}
