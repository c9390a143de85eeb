// The lowest layer: weights, the network's rules, and what a row costs. Document 01's words stand in specs/.
#![tactic(auto)]

pub mod answer;
pub mod check;
mod edges;
pub mod lent;
mod nodes;
pub mod order;
pub mod refusal;
pub mod rows;
pub mod sheet;
pub mod table;
mod transfers;
pub mod weight;

// The total reads and writes of the columns, handed on.
pub use columns::{Entry, at, front, node_at, put};
