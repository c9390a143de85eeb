// Preparation: the shortcuts of a network.
#![tactic(auto)]

mod called;
mod lent;
mod neighbours;
pub mod prepare;
mod slots;
mod testing;
mod turns;
