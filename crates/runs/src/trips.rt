// The cases marked P, but for P7, which is about preparation.
use crate::ask::Case;
use crate::crowd::alone;
use crate::reference::{in_rooms, with_shortcut, without_shortcut};
use crate::sheets::{by_rail, on_foot, rail_only};
use network::order::CORE;
use std::io::Print;

pub(crate) fn run(stdout: &impl Print) {
    with_shortcut(stdout, CORE, 9, Case::new("P1", by_rail(), 0, 6));
    with_shortcut(stdout, CORE, 9, Case::new("P2", on_foot(), 0, 6));
    with_shortcut(stdout, CORE, 9, Case::new("P3", by_rail(), 0, 3));
    with_shortcut(stdout, CORE, 9, Case::new("P4", by_rail(), 3, 4));
    with_shortcut(stdout, CORE, 9, Case::new("P5", by_rail(), 0, 0));
    with_shortcut(stdout, CORE, 9, Case::new("P6", rail_only(), 0, 0));
    without_shortcut(stdout, CORE, 7, Case::new("P8", by_rail(), 0, 6));
    with_shortcut(stdout, CORE, 8, Case::new("P9", by_rail(), 0, 6));
    in_rooms::<5, 112, 224>(stdout, "P10 room 5");
    in_rooms::<6, 112, 224>(stdout, "P10 room 6");
    with_shortcut(stdout, 9, 9, Case::new("P11", by_rail(), 0, 6));
    alone(stdout, "P12");
}
