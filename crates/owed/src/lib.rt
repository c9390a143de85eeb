// A stream's lines, written as they are owed, and the rooms that its reader is lent.
#![tactic(auto)]

pub mod rooms;
pub mod telling;
