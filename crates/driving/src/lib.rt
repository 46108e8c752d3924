// Driver calls: each takes the next lent answer and leaves its record in the log. Where no answer is left, the call ends with 17.
#![tactic(auto)]

ghost use Rattle.std.specs.Prelude.{◌≡◌, ◌+◌, ◌∷◌, []};
ghost use Rattle.words.specs.Answers.{lent, complete};
ghost use Rattle.words.specs.Log.{written};
ghost use Rattle.tables.specs.Driver.{heard, must, try, is_complete, reserve as reserve_step, create as create_step, ask as ask_step};
ghost use Rattle.driving.specs.Ran.{Drove, RoomFor, Lent};
ghost use Rattle.driving.specs.Promises.{telling, hearing};
ghost use Rattle.driving.specs.Endings.{ending};

use tables::Outcome;
use words::{Answer, EventId, Record, Word, answer_after};

// The answers lent to a call and its log, behind the `made` driver calls that the call made so far.
// kept: the log is lent from its first cell, and the rules count records from there.
#[derive(Drop)]
pub struct Driver<'a> {
    pub answers: &'a [u64],
    pub log: &'a mut [u64],
    pub made: usize,
}

impl<'a> Driver<'a> {
    // Before the first driver call.
    pub fn new(answers: &'a [u64], log: &'a mut [u64]) -> Driver<'a>
        ensures lent { (result.answers ≡ answers.entry) × (result.log.ghost_name ≡ log.entry.ghost_name) }
        ensures start { (result.log.now ≡ log.old) × (result.made ≡ 0) }
    {
        Driver {
            answers,
            log,
            made: 0,
        }
    }

    fn next_answer(&self) -> Answer
        ensures { result ≡ lent self.now.answers.now self.now.made }
    {
        answer_after(self.answers, self.made)
    }

    // The driver call that this answers is made, and leaves this line.
    fn leave(&mut self, answer: Answer, line: Record) -> Result<Answer, Outcome>
        requires { RoomFor 1 self.old }
        ensures lent { Lent self.old self.new }
        ensures log { self.new.log.now ≡ written self.old.log.now self.old.made (line ∷ []) }
        ensures made { self.new.made ≡ self.old.made + 1 }
        ensures heard { ending result ≡ heard answer }
    {
        line.write(self.log, self.made);
        self.made += 1;
        match answer {
            Answer::Missing => Err(Outcome::AnswersRanOut),
            _ => Ok(answer),
        }
    }

    // A driver call whose record is known but for its code.
    pub fn tell(&mut self, word: Word, first: u64, second: u64) -> Result<Answer, Outcome>
        requires { RoomFor 1 self.old }
        ensures { Drove (telling word first second) self.old (ending result) self.new }
    {
        let answer = self.next_answer();
        let line = Record {
            kind: word.number(),
            first,
            second,
            code: answer.code(),
        };
        self.leave(answer, line)
    }

    // A driver call whose first field is the answer's value.
    fn hear(&mut self, word: Word, second: u64) -> Result<Answer, Outcome>
        requires { RoomFor 1 self.old }
        ensures { Drove (hearing word second) self.old (ending result) self.new }
    {
        let answer = self.next_answer();
        let line = Record {
            kind: word.number(),
            first: answer.value(),
            second,
            code: answer.code(),
        };
        self.leave(answer, line)
    }

    // A base for a new root.
    pub fn reserve(&mut self, va: u64) -> Result<Answer, Outcome>
        requires { RoomFor 1 self.old }
        ensures { Drove (reserve_step va) self.old (ending result) self.new }
    {
        self.hear(Word::Reserve, va)
    }

    // A new page handle.
    pub fn create(&mut self, page: u64) -> Result<Answer, Outcome>
        requires { RoomFor 1 self.old }
        ensures { Drove (create_step page) self.old (ending result) self.new }
    {
        self.hear(Word::Create, page)
    }

    fn ask(&mut self, id: EventId) -> Result<Answer, Outcome>
        requires { RoomFor 1 self.old }
        ensures { Drove (ask_step id.0) self.old (ending result) self.new }
    {
        let answer = self.next_answer();
        let line = Record {
            kind: Word::Asked.number(),
            first: id.0,
            second: u64::from(answer.value() == 1),
            code: answer.code(),
        };
        self.leave(answer, line)
    }

    // Whether an event is complete. It never ends a call, unless no answer is left.
    pub fn is_complete(&mut self, id: EventId) -> Result<bool, Outcome>
        requires { RoomFor 1 self.old }
        ensures { Drove (is_complete id.0) self.old (ending result) self.new }
    {
        let answer = self.ask(id)?;
        Ok(answer.value() == 1)
    }

    // A failure ends the call with 14.
    pub fn must_tell(&mut self, word: Word, first: u64, second: u64) -> Result<(), Outcome>
        requires { RoomFor 1 self.old }
        ensures { Drove (must (telling word first second)) self.old (ending result) self.new }
    {
        match self.tell(word, first, second)? {
            Answer::Failed(code) => Err(Outcome::DriverFailed(code)),
            _ => Ok(()),
        }
    }

    // A failure is ignored.
    pub fn try_tell(&mut self, word: Word, first: u64, second: u64) -> Result<(), Outcome>
        requires { RoomFor 1 self.old }
        ensures { Drove (try (telling word first second)) self.old (ending result) self.new }
    {
        self.tell(word, first, second)?;
        Ok(())
    }
}
