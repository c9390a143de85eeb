// Prepares stored networks one after the other, and asks both searches about each: for each its name on a line, preparation's `number place count`,
// every row that was lent (or, where there are more than 64, their checksum), and two lines `number place time count` for each question: the plain
// search's, then the contracted search's.
//
// Standard input holds the networks, each as its name, a line feed, the numbers of nodes, edges and lent rows (two bytes each) and of questions (one
// byte), the six columns of the network, and the questions: a sheet of 24 bytes, its state count, from and to. Numbers are big-endian.
// `reference tables` makes that file, and what must be written for it, from the scope document.
#![tactic(auto)]

mod asking;
mod cases;
mod loading;
mod place;
mod rooms;
mod show;

use stored::read_full;

fn main(rt: HostRuntime) {
    let mut room = [0; 65536];
    let n = read_full(&mut rt.stdin(), &mut room);
    cases::run(&rt.stdout(), &room[..n]);
}
