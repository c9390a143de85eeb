// The card: the stream that is read, record by record, and the lines that the unit writes.
#![tactic(auto)]

mod asking;
mod building;
pub mod lent;
mod listing;
pub mod stream;
mod telling;

pub use records::reader;
