// What the layer above the pool asks of its small buffers, and what it tests of itself, of any value.
#![tactic(auto)]

mod table;
mod tests;

pub use table::{is_incredible, with_small, without_small};
pub use tests::own_kept;
