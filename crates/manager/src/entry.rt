// What ends a call before the pool is asked.
ghost use Rattle.std.specs.Prelude.{◌≡◌};
ghost use Rattle.manager.specs.Entry.{own_refused, close_refused};

use manager_rules::Manager;
use small_buffers::own_kept;
use tables::Outcome;

// 1, 2, and 3 where the layer's own part is not well formed.
pub fn own_refused(m: &Manager) -> Result<(), Outcome>
    ensures { result ≡ own_refused m.now }
{
    if m.pool.state == Manager::STOPPED {
        return Err(Outcome::PoolStopped);
    }
    close_refused(m)
}

// The same of a close, which a stopped layer is served too.
pub fn close_refused(m: &Manager) -> Result<(), Outcome>
    ensures { result ≡ close_refused m.now }
{
    if m.pool.state == Manager::CLOSED {
        return Err(Outcome::PoolClosed);
    }
    if own_kept(m) {
        Ok(())
    } else {
        Err(Outcome::NotWellFormed)
    }
}
