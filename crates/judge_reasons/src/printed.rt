// Why a trace is not accepted, as it is printed.
use crate::{Form, Reason};
use judge_rules::Verdict;
use std::fmt;

#[derive(Clone, Copy)]
pub enum Words {
    // A line is missing behind the last one: that of the open, or the result of a call.
    Empty,
    Within,
    // a malformed line's number, and what is wrong with it
    Malformed(u64, Form),
    // a rejected line's number, its rule and the reason
    Broken(u64, u64, Reason),
    // the number of a line that is too much, and what there is too much of
    Beyond(u64, u64),
}

impl fmt::Display for Words {
    fn fmt<W: fmt::Write>(&self, f: &mut fmt::Formatter<W>) -> fmt::Result {
        match *self {
            Words::Empty => f.write_str("the input is empty"),
            Words::Within => f.write_str("the input ends inside a call"),
            Words::Malformed(line, form) => write!(f, "line {line}: {form}"),
            Words::Broken(line, rule, Reason::Unexplained) => {
                let about = about(rule);
                write!(f, "line {line}: R{rule}, {about}")
            }
            Words::Broken(line, rule, reason) => write!(f, "line {line}: R{rule}, {reason}"),
            Words::Beyond(line, which) => {
                let more = more_than(which);
                write!(f, "line {line}: {more}")
            }
        }
    }
}

// What a rule is about, where nothing more is known.
// kept: the rules are numbers, as `Verdict` has them.
fn about(rule: u64) -> &'static str {
    match rule {
        Verdict::R0 => "a line that may not stand here",
        Verdict::R1 => "a reservation that cannot be",
        Verdict::R2 => "a handle that is held already",
        Verdict::R3 => "a page that cannot be mapped so",
        Verdict::R4 => "a range that is not of mapped pages, or has a live buffer",
        Verdict::R5 => "a handle that is not held, or still under a page",
        Verdict::R6 => "a range that is not of mapped pages",
        Verdict::R7 => "a buffer that cannot be handed over",
        Verdict::R8 => "a buffer that is not live so",
        Verdict::R9 => "an event id that does not rise, or is not recorded yet",
        Verdict::R10 => "a reservation that is not held, or has a page",
        _ => "another rule",
    }
}

// What is too large (docs/RULES.md 8.6).
// kept: the sizes are numbers, as `Verdict` has them.
fn more_than(which: u64) -> &'static str {
    match which {
        Verdict::RESERVATIONS => "more than 16 reservations at once",
        Verdict::HELD_HANDLES => "more than 256 handles held at once",
        Verdict::LIVE_BUFFERS => "more than 128 live buffers at once",
        Verdict::MAPPED_PAGES => "more than 4,096 mapped pages at once",
        _ => "more than the judge holds at once",
    }
}

impl fmt::Display for Reason {
    fn fmt<W: fmt::Write>(&self, f: &mut fmt::Formatter<W>) -> fmt::Result {
        match *self {
            Reason::NotOpened => f.write_str("the first line is not an open"),
            Reason::OpenAgain => f.write_str("a second open"),
            Reason::PageSizeZero => f.write_str("the page size of the open is 0"),
            Reason::CallWithinCall => f.write_str("a call before the result of the last one"),
            Reason::AsideWithinCall => f.write_str("a small buffer's line inside a call"),
            Reason::RecordOutside => f.write_str("a record that belongs to no call"),
            Reason::ResultOutside => f.write_str("a result that belongs to no call"),
            Reason::AfterClose => {
                f.write_str("after the close every call has no record and the result 0 0 1")
            }
            Reason::BaseZero => f.write_str("the base is 0"),
            Reason::EndsBeyond(base, size) => {
                write!(f, "the end is beyond 2^63: base {base}, size {size}")
            }
            Reason::Overlaps(base, size) => {
                write!(f, "it overlaps the reservation at {base}, of size {size}")
            }
            Reason::OtherSize(size, va) => {
                write!(f, "the size is {size}, and the va_size of the open {va}")
            }
            Reason::NotAligned(address, page) => {
                write!(
                    f,
                    "address {address} is no multiple of the page size {page}"
                )
            }
            Reason::NotWhole(bytes, page) => {
                write!(f, "size {bytes} is no multiple of the page size {page}")
            }
            Reason::NoBytes(address) => write!(f, "a range of no bytes at {address}"),
            Reason::HandleNotHeld(handle) => write!(f, "handle {handle} is not held"),
            Reason::AlreadyHeld(handle) => write!(f, "handle {handle} is held already"),
            Reason::InNoReservation(address) => {
                write!(f, "the page at {address} lies in no reservation")
            }
            Reason::AlreadyMapped(address, handle) => {
                write!(
                    f,
                    "a page is mapped already at {address}, of handle {handle}"
                )
            }
            Reason::BeyondLastAddress(address, bytes) => write!(
                f,
                "the range ends beyond the last address: address {address}, bytes {bytes}"
            ),
            Reason::NotMapped(address) => write!(f, "no page is mapped at {address}"),
            Reason::OverLive(start, size) => {
                write!(f, "it overlaps the live buffer at {start}, of size {size}")
            }
            Reason::StillMapped(handle, address) => {
                write!(f, "handle {handle} is still mapped at {address}")
            }
            Reason::GivenOtherSize(given, asked) => {
                write!(f, "the size is {given}, and the size asked for {asked}")
            }
            Reason::HandleTwice(handle, address, other) => write!(
                f,
                "handle {handle} is mapped twice in the buffer, at {address} and at {other}"
            ),
            Reason::HandleOfLive(handle, address, other) => write!(
                f,
                "handle {handle} is mapped in the buffer at {address} and in a live one at {other}"
            ),
            Reason::NotLive(address) => write!(f, "no live buffer starts at {address}"),
            Reason::FreedOtherSize(address, size, there) => write!(
                f,
                "the live buffer at {address} is freed with size {size}, and has size {there}"
            ),
            Reason::FreedOtherStream(address, stream, there) => write!(
                f,
                "the live buffer at {address} is freed with stream {stream}, and has stream {there}"
            ),
            Reason::NotAbove(id, last) => {
                write!(f, "event id {id} is not above the last one, {last}")
            }
            Reason::NothingRecorded(id) => {
                write!(f, "event id {id} is asked for, and none is recorded yet")
            }
            Reason::AboveLast(id, last) => {
                write!(f, "event id {id} is above the last one recorded, {last}")
            }
            Reason::NotReserved(base, size) => {
                write!(f, "no reservation is held at {base} of size {size}")
            }
            Reason::PageInside(address) => {
                write!(f, "in the reservation a page is still mapped at {address}")
            }
            // The words of its rule stand in.
            Reason::Unexplained => Ok(()),
        }
    }
}

impl fmt::Display for Form {
    fn fmt<W: fmt::Write>(&self, f: &mut fmt::Formatter<W>) -> fmt::Result {
        match *self {
            Form::Empty => f.write_str("an empty line"),
            Form::CarriageReturn => f.write_str("it ends in a carriage return"),
            Form::ByteOrderMark => f.write_str("it begins with a byte order mark"),
            Form::Compressed => f.write_str("the input is compressed"),
            Form::TooLong => f.write_str("it is longer than any line of a trace"),
            Form::Spaces(_) => f.write_str("spaces where tabs should be"),
            Form::NotText(place) => write!(f, "after {place} bytes comes one that is no text"),
            Form::UnknownWord(_) => f.write_str("it begins with no word of a trace"),
            Form::TooFewFields(n) | Form::TooManyFields(n) => {
                write!(f, "it has {n} tabs, and not three")
            }
            Form::NotANumber(place, _) => write!(
                f,
                "after {place} bytes comes what is not written as a number below 2^64"
            ),
            Form::Other => f.write_str("it is not of the form of a line"),
        }
    }
}
