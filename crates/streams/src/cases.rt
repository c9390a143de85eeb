// The stored streams, in the order in which they stand.
use owed::rooms::Rooms;
use owed::telling::{close, take_byte};
use records::reader::begin;
use std::io::Print;
use stored::cursor::Cursor;

// More than there are stored streams: a proved loop has to end.
const MANY: u32 = 1000;

// The next bytes of the input as a stream of this length, with rooms of its own, as `journeys` lends them: all zero at its first byte. Bytes behind
// a refusal are handed over too, and owe nothing.
fn answer(stdout: &impl Print, input: &mut Cursor, length: u16) {
    let mut rooms = Rooms::ZEROED;
    let mut lent = rooms.lend();
    let mut reader = begin();
    for _ in 0..length {
        // A write that fails is passed over here, too.
        reader = match take_byte(stdout, reader, input.byte(), &mut lent) {
            Ok(next) | Err(next) => next,
        };
    }
    close(stdout, reader, lent.line);
}

// All that the input holds.
pub fn run(stdout: &impl Print, input: &[u8]) {
    let mut cursor = Cursor { rest: input };
    for _ in 0..MANY {
        if cursor.rest.is_empty() {
            return;
        }
        // A write that fails is passed over: what it leaves out is missing from the output.
        let _ = stdout.write_all(cursor.name());
        let length = cursor.word();
        answer(stdout, &mut cursor, length);
    }
}
