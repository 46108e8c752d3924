// The rows of the judge's tables.

#[derive(Clone, Copy, Default)]
pub struct Reservation {
    pub base: u64,
    pub size: u64,
}

// A mapped page: where it starts, and the handle under it.
#[derive(Clone, Copy, Default)]
pub struct Page {
    pub at: u64,
    pub handle: u64,
}

// A live buffer.
#[derive(Clone, Copy, Default)]
pub struct Live {
    pub start: u64,
    pub size: u64,
    pub stream: u64,
}
