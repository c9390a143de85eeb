// The lines that the unit writes.
#![tactic(auto)]

pub mod text;
