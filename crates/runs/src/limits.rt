// The reference network at its limits: a length, a rank, a number of states and a question on either side of what is allowed.
use crate::ask::Case;
use crate::reference::{with_shortcut, without_shortcut};
use crate::sheets::{by_rail, rail_last};
use network::order::CORE;
use std::io::Print;

pub(crate) fn run(stdout: &impl Print) {
    without_shortcut(stdout, CORE, 0, Case::new("length 0", by_rail(), 0, 6));
    without_shortcut(stdout, CORE, 1, Case::new("length 1", by_rail(), 0, 6));
    with_shortcut(stdout, 65534, 9, Case::new("rank 65534", by_rail(), 0, 6));
    with_shortcut(stdout, 65535, 9, Case::new("rank 65535", by_rail(), 0, 6));
    with_shortcut(stdout, CORE, 9, Case::new("8 states", rail_last(8), 0, 6));
    with_shortcut(stdout, CORE, 9, Case::new("9 states", rail_last(9), 0, 6));
    with_shortcut(stdout, CORE, 9, Case::new("to node 6", by_rail(), 0, 6));
    with_shortcut(stdout, CORE, 9, Case::new("to node 7", by_rail(), 0, 7));
    with_shortcut(stdout, CORE, 9, Case::new("from node 7", by_rail(), 7, 7));
}
