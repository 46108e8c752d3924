// The parts of a call of the layer that takes bytes: what a size asks for, the figures, the pool's tests at entry, and the records of small buffers.
#![tactic(auto)]

mod log;

ghost use Rattle.std.specs.Prelude.{◌≡◌, ◌+◌, ◌<◌, ◌^◌};
ghost use Rattle.manager_rules.specs.Sizes.{request as request_is};
ghost use Rattle.manager_rules.specs.Malloc.{grown};
ghost use Rattle.manager_parts.specs.Promises.{request_of, pool_refused};

pub use log::{drop_record, move_up, small_record, write_drops};
use manager_rules::Manager;
use pool_entry::enter;
use tables::{Outcome, Pool};

// What a size in bytes asks for: nothing that there is, a buffer of the driver's own, or so many bytes in whole pages.
// kept: three answers, and the rules name each (`request_of`).
#[derive(Clone, Copy, PartialEq, Eq)]
pub enum Request {
    Unfit,
    Smaller,
    Whole(u64),
}

// The next multiple of the page size, where it is no larger than the largest size. A page size of 0 leaves a size as it is.
pub fn asked_by(page: u64, bytes: u64) -> Request
    ensures { request_of result ≡ request_is page bytes }
{
    if bytes == 0 {
        return Request::Unfit;
    }
    if bytes < page {
        return Request::Smaller;
    }
    match bytes.checked_next_multiple_of(page.max(1)) {
        Some(size) if size <= Manager::BYTES => Request::Whole(size),
        _ => Request::Unfit,
    }
}

// 1 to 5 of the pool, which stays as it came. `room` counts the records that the log has room for.
pub fn pool_refused(pool: &Pool, room: usize) -> Result<(), Outcome>
    ensures { result ≡ pool_refused pool.now room }
{
    let mut entered = *pool;
    enter(&mut entered, room)
}

// `n` bytes more are held.
pub fn grow(m: &mut Manager, n: u64)
    requires { m.old.current + n < 2 ^ 64 }
    ensures { m.new ≡ grown n m.old }
{
    m.current += n;
    m.highest = m.highest.max(m.current);
}
