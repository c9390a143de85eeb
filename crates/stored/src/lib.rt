// What the programs that answer stored cases share: the whole input, and its bytes one after the other.
#![tactic(auto)]

ghost use Rattle.std.specs.Prelude.{◌≡◌, ◌≤◌, length, take};
ghost use Rattle.std.specs.Io.KnownBytes.{Consumes};

pub mod cursor;

use std::io::Read;

// Reads until the room is full, the input ends or a read fails. How many bytes came: a read may bring fewer than there is room for, so this is no `for`.
pub fn read_full<R: Read>(input: &mut R, room: &mut [u8]) -> usize
    ensures within { result ≤ length room.new }
    ensures bytes { Consumes (R.remaining input.old) (R.remaining input.new) (take result room.new) }
{
    let mut done = 0;
    while done < room.len() {
        match input.read(&mut room[done..]) {
            Ok(0) | Err(_) => return done,
            Ok(n) => done += n,
        }
    }
    done
}
