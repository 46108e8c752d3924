// What passes between a call and the driver: addresses, handles and event ids, the driver's words, its lent answers, and the records of the log.
#![tactic(auto)]

ghost use Rattle.std.specs.Prelude.{◌∷◌, [], ◌≡◌, ◌+◌, ◌*◌, ◌≤◌, length, drop};
ghost use Rattle.words.specs.Words.{number as number_of};
ghost use Rattle.words.specs.Answers.{of_pair, lent, code_of, value_of, taken_after, moved_on};
ghost use Rattle.words.specs.Log.{written};

use cells::Entry;

#[repr(C)]
#[derive(Clone, Copy, PartialEq, Eq)]
pub struct Address(pub u64);

impl Entry for Address {
    const EMPTY: Address = Address(0);

    ghost EMPTY = { record { 0 = 0 } };

    ghost key = { λ a. a.0 };

    fn key(self) -> u64 {
        self.0
    }

    fn bits(self) -> u64 {
        self.0
    }
}

// A page of the card's memory, wherever it is mapped.
#[repr(C)]
#[derive(Clone, Copy, PartialEq, Eq)]
pub struct Handle(pub u64);

#[repr(C)]
#[derive(Clone, Copy, PartialEq, Eq)]
pub struct EventId(pub u64);

// The driver's calls.
#[derive(Clone, Copy)]
pub enum Word {
    Reserve = 1,
    Create = 2,
    Map = 3,
    Access = 4,
    Unmap = 5,
    Release = 6,
    Record = 7,
    Asked = 8,
    Wait = 9,
    Sync = 10,
    Giveback = 11,
}

impl Word {
    pub fn number(self) -> u64
        ensures { result ≡ number_of self }
    {
        self as u64
    }
}

// A lent answer: the value of a success, the code of a failure, or none left.
// kept: the rules name these three, and `Option<Result<u64, u64>>` would name none of them.
#[derive(Clone, Copy)]
pub enum Answer {
    Done(u64),
    Failed(u64),
    Missing,
}

impl Answer {
    // The answer to the driver call that comes after `made` others.
    pub fn at(answers: &[u64], made: usize) -> Self
        ensures { result ≡ lent answers.now made }
    {
        let pairs = answers.len() / 2;
        if pairs <= made {
            return Answer::Missing;
        }
        let place = 2 * made;
        let next = place + 1;
        let code = answers[place];
        let value = answers[next];
        Answer::of_pair(code, value)
    }

    fn of_pair(code: u64, value: u64) -> Self
        ensures { result ≡ of_pair code value }
    {
        if code == 0 {
            return Answer::Done(value);
        }
        Answer::Failed(code)
    }

    pub fn code(self) -> u64
        ensures { result ≡ code_of self }
    {
        match self {
            Answer::Done(_) => 0,
            Answer::Failed(code) => code,
            Answer::Missing => 0,
        }
    }

    pub fn value(self) -> u64
        ensures { result ≡ value_of self }
    {
        match self {
            Answer::Done(value) => value,
            Answer::Failed(_) => 0,
            Answer::Missing => 0,
        }
    }
}

// How many answers are taken once the one after `taken` others is. Where none is left, none is taken.
fn taken_after(answers: &[u64], taken: usize) -> usize
    ensures { result ≡ taken_after answers.now taken }
{
    let pairs = answers.len() / 2;
    if pairs <= taken {
        return taken;
    }
    taken + 1
}

// Reads the lent answers in turn: its place is behind those that were taken.
// kept: its clauses name the place, and a caller may go on from any.
#[derive(Clone, Copy)]
pub struct Reader<'a> {
    answers: &'a [u64],
    place: usize,
}

impl<'a> Reader<'a> {
    // Behind the first `taken` answers.
    pub fn new(answers: &'a [u64], taken: usize) -> Reader<'a>
        ensures { (result.answers ≡ answers.entry) × (result.place ≡ taken) }
    {
        Reader {
            answers,
            place: taken,
        }
    }

    // How many answers were taken.
    pub fn taken(self) -> usize
        ensures { result ≡ self.entry.place }
    {
        self.place
    }

    // The answer at the place, which moves on behind it.
    pub fn next<'s>(&'s mut self) -> Answer
        ensures { (result ≡ lent self.old.answers.now self.old.place)
            × (self.new ≡ moved_on self.old) }
    {
        let answers = self.answers;
        let place = self.place;
        self.place = taken_after(answers, place);
        Answer::at(answers, place)
    }
}

// The answer after `taken` others, by a reader.
pub fn answer_after(answers: &[u64], taken: usize) -> Answer
    ensures { result ≡ lent answers.now taken }
{
    let mut reader = Reader::new(answers, taken);
    reader.next()
}

// A record of the log.
// kept: C reads a record as four numbers.
#[repr(C)]
#[derive(Clone, Copy)]
pub struct Record {
    pub kind: u64,
    pub first: u64,
    pub second: u64,
    pub code: u64,
}

impl Record {
    // Into the first four cells of what is left of the log.
    fn put(self, rest: &mut [u64])
        requires { 4 ≤ length rest.old }
        ensures { rest.new ≡ self.kind ∷ self.first ∷ self.second ∷ self.code ∷ drop 4 rest.old }
    {
        rest[0] = self.kind;
        rest[1] = self.first;
        rest[2] = self.second;
        rest[3] = self.code;
    }

    // Into the log, after `made` others.
    pub fn write(self, log: &mut [u64], made: usize)
        requires { 4 * (made + 1) ≤ length log.old }
        ensures { log.new ≡ written log.old made (self ∷ []) }
    {
        let at = 4 * made;
        self.put(&mut log[at..]);
    }
}
