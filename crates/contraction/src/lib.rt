// Contraction as a whole: preparation, opening and the contracted search, handed on from the crates that hold them. What holds of all of them
// together, condition 3 and 01's cases, stands in this crate's proofs.
#![tactic(auto)]

pub use legs::{contracted, opening};
pub use preparation::prepare;
