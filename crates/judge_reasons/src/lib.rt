// Why the judge rejects a line, in words. The judge's verdict does not lean on this crate: it looks at the state and the tables again, and what it says is proved
// true of them (specs/Reasons.antt) or of the bytes of a malformed line (specs/Forms.antt).
#![tactic(auto)]

mod fields;
mod forms;
mod order;
mod parts;
mod printed;
mod ranges;
mod reasons;
mod rules;
mod searches;
mod seen;
mod texts;

pub use forms::form_of;
pub use printed::Words;
pub use reasons::why;
pub use seen::Seen;
pub use texts::{put_empty, put_form, put_large, put_reason, put_within};

// What is found against a line. The comments name the numbers.
// kept: `Unexplained` is a reason too: what is promised of it is what is promised of each.
#[derive(Clone, Copy)]
pub enum Reason {
    // R0
    NotOpened,
    OpenAgain,
    PageSizeZero,
    CallWithinCall,
    AsideWithinCall,
    RecordOutside,
    ResultOutside,
    AfterClose,
    // R1: base and size; the reservation that it overlaps, its base and size; size and va_size
    BaseZero,
    EndsBeyond(u64, u64),
    Overlaps(u64, u64),
    OtherSize(u64, u64),
    // of several rules: an address or a size, and the page size; an address; a handle
    NotAligned(u64, u64),
    NotWhole(u64, u64),
    NoBytes(u64),
    HandleNotHeld(u64),
    // R2: the handle
    AlreadyHeld(u64),
    // R3: the address; the address and the handle there
    InNoReservation(u64),
    AlreadyMapped(u64, u64),
    // R4, R6, R7: address and bytes; the address at which no page is mapped; a live buffer, its start and size
    BeyondLastAddress(u64, u64),
    NotMapped(u64),
    OverLive(u64, u64),
    // R5: the handle and the address
    StillMapped(u64, u64),
    // R7: the size given and the size asked for; the handle, the address and another one
    GivenOtherSize(u64, u64),
    HandleTwice(u64, u64, u64),
    HandleOfLive(u64, u64, u64),
    // R8: the address; the address, the size or the stream freed, the one there
    NotLive(u64),
    FreedOtherSize(u64, u64, u64),
    FreedOtherStream(u64, u64, u64),
    // R9: the id, and the last
    NotAbove(u64, u64),
    NothingRecorded(u64),
    AboveLast(u64, u64),
    // R10: base and size; the address
    NotReserved(u64, u64),
    PageInside(u64),
    Unexplained,
}

// What is wrong with the form of a line. A place is counted from 0.
// kept: `Other` is printed as the others are.
#[derive(Clone, Copy)]
pub enum Form {
    Empty,
    CarriageReturn,
    ByteOrderMark,
    Compressed,
    TooLong,
    // where a space stands
    Spaces(usize),
    // where a byte stands that is no text
    NotText(usize),
    // how many bytes come before the first tab
    UnknownWord(usize),
    // how many tabs there are
    TooFewFields(usize),
    TooManyFields(usize),
    // where a field begins, and the place behind it
    NotANumber(usize, usize),
    Other,
}
