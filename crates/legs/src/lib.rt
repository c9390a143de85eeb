// Opening a row into its edges, and the contracted search, which opens the rows of its journey.
#![tactic(auto)]

pub mod contracted;
pub mod opening;
