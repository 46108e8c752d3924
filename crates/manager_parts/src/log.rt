// The records of small buffers, and their place in a log before those of the pool.
ghost use Rattle.std.specs.Prelude.{◌≡◌, ◌++◌, ◌+◌, ◌*◌, ◌≤◌, length, take, drop};
ghost use Rattle.words.specs.Log.{written};
ghost use Rattle.manager_rules.specs.Malloc.{small_record};
ghost use Rattle.manager_rules.specs.Free.{drop_record};
ghost use Rattle.manager_rules.specs.Close.{drops};

use manager_rules::SmallBuffer;
use trace::Line;
use words::{Answer, Record};

pub fn small_record(pointer: u64, size: u64, code: u64) -> Record
    ensures { result ≡ small_record pointer size code }
{
    Record {
        kind: Line::SMALL,
        first: pointer,
        second: size,
        code,
    }
}

pub fn drop_record(b: SmallBuffer, code: u64) -> Record
    ensures { result ≡ drop_record b code }
{
    Record {
        kind: Line::DROPSMALL,
        first: b.pointer,
        second: b.size,
        code,
    }
}

// The first `count` records of a log, moved behind `by` others; what stood there is gone.
pub fn move_up(log: &mut [u64], count: usize, by: usize)
    requires { 4 * (count + by) ≤ length log.old }
    ensures { drop (4 * by) log.new ≡ take (4 * count) log.old ++ drop (4 * (count + by)) log.old }
{
    log.copy_within(..4 * count, 4 * by);
}

// A record for each small buffer that has an answer, and for the first that has none; how many there are.
pub fn write_drops(small: &[SmallBuffer], answers: &[u64], log: &mut [u64]) -> usize
    requires { 4 * length small.now ≤ length log.old }
    ensures counted { result ≡ length (drops answers.now 0 small.now) }
    ensures wrote { log.new ≡ written log.old 0 (drops answers.now 0 small.now) }
{
    for (made, b) in small.iter().enumerate() {
        let answer = Answer::at(answers, made);
        let record = drop_record(*b, answer.code());
        record.write(log, made);
        if let Answer::Missing = answer {
            return made + 1;
        }
    }
    small.len()
}
