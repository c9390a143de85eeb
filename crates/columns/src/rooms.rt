// The work rooms as a whole.
ghost use Rattle.std.specs.Prelude.{◌≡◌, length, replicate};
ghost use Rattle.columns.specs.Rooms.{Zeroed};

use crate::Entry;

// Gives every number of a room one value.
pub fn fill<T: Entry>(room: &mut [T], value: T)
    ensures { room.new ≡ replicate (length room.old) value }
{
    room.fill(value);
}

// Zeroes both rooms, all of them.
pub fn clear(wide: &mut [u64], narrow: &mut [u32])
    ensures { Zeroed wide.old wide.new narrow.old narrow.new }
{
    fill(wide, 0);
    fill(narrow, 0);
}
