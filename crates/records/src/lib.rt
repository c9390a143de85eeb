// The reader of a card stream: its records one after the other, byte by byte.
#![tactic(auto)]

pub mod reader;
