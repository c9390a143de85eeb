// Reads one card stream from standard input and writes a line for each question, as the scope document says.
//
// The exit status is 0 however the stream ends: a refusal is an answer, and its line tells which. So a caller reads one channel.
#![tactic(auto)]

mod reading;

use owed::rooms::Rooms;
use reading::read_stream;

fn main(rt: HostRuntime) {
    let mut rooms = Rooms::ZEROED;
    read_stream(&mut rt.stdin(), &rt.stdout(), &mut rooms.lend());
}
