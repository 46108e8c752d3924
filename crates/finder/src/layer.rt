// The layer that takes bytes, for C and Rust, under the same conventions.
ghost use Rattle.std.specs.Prelude.{◌≡◌};
ghost use Rattle.manager_rules.specs.Reset.{highest_reset};
ghost use Rattle.finder.specs.Plain.{manager_of};
ghost use Rattle.finder.specs.Manages.{ManagesOpen, ManagesMalloc, ManagesFree, ManagesClose};

use crate::{ManagerReply, PlainManager};
use manager::Manager;
use words::Address;

#[unsafe(no_mangle)]
pub extern "C" fn manager_open(
    granularity: u64,
    override_size: u64,
    va_size: u64,
    initial_pages: u64,
    initial_stream: u64,
    answers: &[u64],
    log: &mut [u64],
) -> ManagerReply
    ensures { ManagesOpen granularity override_size va_size initial_pages initial_stream
        answers.now log.old result log.new }
{
    let called = Manager::open(
        granularity,
        override_size,
        va_size,
        initial_pages,
        initial_stream,
        answers,
        log,
    );
    ManagerReply::from(called)
}

#[unsafe(no_mangle)]
pub extern "C" fn manager_malloc(
    manager: PlainManager,
    bytes: u64,
    stream: u64,
    answers: &[u64],
    log: &mut [u64],
) -> ManagerReply
    ensures { ManagesMalloc manager bytes stream answers.now log.old result log.new }
{
    let value = manager_rules::Manager::from(manager);
    ManagerReply::from(Manager { value }.malloc(bytes, stream, answers, log))
}

#[unsafe(no_mangle)]
pub extern "C" fn manager_free(
    manager: PlainManager,
    address: u64,
    answers: &[u64],
    log: &mut [u64],
) -> ManagerReply
    ensures { ManagesFree manager address answers.now log.old result log.new }
{
    let value = manager_rules::Manager::from(manager);
    ManagerReply::from(Manager { value }.free(Address(address), answers, log))
}

#[unsafe(no_mangle)]
pub extern "C" fn manager_close(
    manager: PlainManager,
    answers: &[u64],
    log: &mut [u64],
) -> ManagerReply
    ensures { ManagesClose manager answers.now log.old result log.new }
{
    let value = manager_rules::Manager::from(manager);
    ManagerReply::from(Manager { value }.close(answers, log))
}

#[unsafe(no_mangle)]
pub extern "C" fn manager_reset_highest(manager: PlainManager) -> PlainManager
    ensures { manager_of result ≡ highest_reset (manager_of manager) }
{
    let value = manager_rules::Manager::from(manager);
    PlainManager::from(Manager { value }.reset_highest().value)
}
