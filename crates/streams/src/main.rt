// Answers stored card streams one after the other: for each its name on a line, then the text that the card reader owes for it.
//
// Standard input holds the streams, each as its name, a line feed, its length as two bytes (big-endian) and its bytes. `reference streams` makes
// that file, and what must be written for it, from the scope document.
#![tactic(auto)]

mod cases;

use stored::read_full;

fn main(rt: HostRuntime) {
    let mut room = [0; 32768];
    let n = read_full(&mut rt.stdin(), &mut room);
    cases::run(&rt.stdout(), &room[..n]);
}
