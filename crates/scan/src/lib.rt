// The words of a sheet read one by one (refusals 1 to 6 of document 01, and 16 of document 02), and its lifts read from them.
#![tactic(auto)]

mod entries;
mod faults;
mod reading;

pub use entries::{Walk, entry_at, lifts, marks, size};
pub use reading::read;
