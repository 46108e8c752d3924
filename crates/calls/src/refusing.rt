// What malloc and open test before their steps.
ghost use Rattle.std.specs.Prelude.{◌≡◌, ◌<◌};
ghost use Rattle.tables.specs.Open.{page_size, bad_configuration};
ghost use Rattle.calls.specs.Refusing.{size_refused, open_refused};

use super::Pool;
use pool_entry::log_is_short;
use pool_soundness::is_allowed;
use tables::Outcome;

// 6 for a size that is not whole, 7 where no span is to spare.
pub fn size_refused(page: u64, spans: usize, bytes: u64) -> Result<(), Outcome>
    requires { 0 < page }
    ensures { result ≡ size_refused page spans bytes }
{
    if bytes == 0 || bytes % page != 0 {
        return Err(Outcome::BadSize(bytes));
    }
    if spans >= Pool::SPANS {
        return Err(Outcome::SpansFull);
    }
    Ok(())
}

// Override 0 stands for the granularity.
pub fn page_size(granularity: u64, override_size: u64) -> u64
    ensures { result ≡ page_size granularity override_size }
{
    if override_size == 0 {
        return granularity;
    }
    override_size
}

// 19. Initial pages are tested against the ceiling first: then their size is a number of 64 bits.
fn is_bad(granularity: u64, override_size: u64, va: u64, initial: u64) -> bool
    ensures { result ≡ bad_configuration granularity override_size va initial }
{
    if granularity == 0 {
        return true;
    }
    if override_size % granularity != 0 {
        return true;
    }
    let page = page_size(granularity, override_size);
    if !is_allowed(page, va) {
        return true;
    }
    if initial > Pool::PAGES as u64 {
        return true;
    }
    initial * page > va
}

// 4, and then 19. `room` counts the records that the log has room for.
pub fn open_refused(
    granularity: u64,
    override_size: u64,
    va: u64,
    initial: u64,
    room: usize,
) -> Result<(), Outcome>
    ensures { result ≡ open_refused granularity override_size va initial room }
{
    if log_is_short(room) {
        return Err(Outcome::ShortLog);
    }
    if is_bad(granularity, override_size, va, initial) {
        return Err(Outcome::BadConfiguration);
    }
    Ok(())
}
