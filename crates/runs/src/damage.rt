// P1 with something wrong in what is lent: a work room one number short, or a table that is damaged.
use crate::ask::{Case, rows};
use crate::reference::{Reference, in_rooms, shortcut};
use crate::rooms::Rooms;
use crate::sheets::by_rail;
use network::order::CORE;
use std::io::Print;

fn children(stdout: &impl Print, name: &str, firsts: &[u16], seconds: &[u16]) {
    let reference = Reference::new(CORE, 9);
    let mut journey = [0; 8];
    let mut wide = [0; 112];
    let mut narrow = [0; 224];
    rows(
        stdout,
        Case::new(name, by_rail(), 0, 6),
        &reference.network(),
        &shortcut(firsts, seconds),
        Rooms::filled(&mut journey, &mut wide, &mut narrow),
    );
}

pub(crate) fn run(stdout: &impl Print) {
    in_rooms::<8, 111, 224>(stdout, "wide room 111");
    in_rooms::<8, 112, 223>(stdout, "narrow room 223");
    // The column of second children lacks its only entry.
    children(stdout, "uneven columns", &[0], &[]);
    children(stdout, "own first child", &[8], &[1]);
    children(stdout, "own second child", &[0], &[8]);
}
