// The searches: plain, over rows, and for witnesses.
#![tactic(auto)]

mod engine;
mod homeward;
mod labels;
mod leave;
mod legs;
mod moves;
mod pick;
pub mod plain;
mod question;
pub mod room;
pub mod rows;
pub mod witness;

pub use columns::rooms;
pub use legs::Told;
