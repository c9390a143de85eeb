// The opening of a row: its edge numbers in order, in a room that the caller lends.
ghost use Rattle.std.specs.Prelude.{◌++◌, length};
ghost use Rattle.network.specs.Lent.{network_of, columns_of};
ghost use Rattle.network.specs.Answers.{Decides};
ghost use Rattle.legs.specs.Opened.{Openable, OpenedInto, HandedBack};
ghost use Rattle.legs.specs.Steps.{legs, RowFits, PairFits, Written, Accepted};

use network::check::check_network;
use network::lent::{Network, Shortcuts};
use network::rows::row_at;
use network::table::check_rows;

// Opens a row of a checked table: an edge is its own leg, a shortcut opens its two children. Answers how many legs there are.
#[cycle(open_pair_open_row)]
pub(crate) fn open_row(
    network: &Network,
    shortcuts: &Shortcuts,
    row: u16,
    room: &mut [u16],
) -> usize
    requires { RowFits (length network.now.tails.now) shortcuts.now.firsts.now shortcuts.now.seconds.now row (length room.old) }
    ensures { Written (legs (length network.now.tails.now) shortcuts.now.firsts.now shortcuts.now.seconds.now row) room.old result room.new }
{
    let r = row as usize;
    if r < network.tails.len() {
        room[0] = row;
        return 1;
    }
    let i = r - network.tails.len();
    let first = shortcuts.firsts[i];
    let second = shortcuts.seconds[i];
    open_pair(network, shortcuts, first, second, room)
}

// Opens a shortcut's two children, the second into the room behind the first.
#[cycle(open_pair_open_row)]
fn open_pair(
    network: &Network,
    shortcuts: &Shortcuts,
    first: u16,
    second: u16,
    room: &mut [u16],
) -> usize
    requires { PairFits (length network.now.tails.now) shortcuts.now.firsts.now shortcuts.now.seconds.now first second (length room.old) }
    ensures { Written (legs (length network.now.tails.now) shortcuts.now.firsts.now shortcuts.now.seconds.now first ++ legs (length network.now.tails.now) shortcuts.now.firsts.now shortcuts.now.seconds.now second) room.old result room.new }
{
    let front = open_row(network, shortcuts, first, room);
    let behind = open_row(network, shortcuts, second, &mut room[front..]);
    front + behind
}

// Whether the network and its shortcuts keep all rules.
fn accepted(network: &Network, shortcuts: &Shortcuts) -> bool
    ensures { Decides result (Accepted (network_of network.now) (columns_of shortcuts.now)) }
{
    check_network(network).is_ok() && check_rows(network, shortcuts).is_ok()
}

// Whether the row may be opened into a room of so many numbers.
fn openable(network: &Network, shortcuts: &Shortcuts, row: u16, room: usize) -> bool
    ensures { Decides result (Openable (network_of network.now) (columns_of shortcuts.now) row room) }
{
    if !accepted(network, shortcuts) {
        return false;
    }
    (row as usize) < network.tails.len() + shortcuts.tails.len()
        && row_at(network, shortcuts, row as usize).count as usize <= room
}

// Opens the row into the front of the room and answers how many numbers it wrote; 0, and nothing is written, where it may not be opened. C gets the
// number as it is, and `OpenedInto` names it.
pub fn open_into(network: &Network, shortcuts: &Shortcuts, row: u16, room: &mut [u16]) -> usize
    ensures { OpenedInto (network_of network.now) (columns_of shortcuts.now) row room.old result room.new }
{
    if openable(network, shortcuts, row, room.len()) {
        open_row(network, shortcuts, row, room)
    } else {
        0
    }
}

// The same, and hands back the filled front of the room.
pub fn open<'a>(
    network: &Network,
    shortcuts: &Shortcuts,
    row: u16,
    room: &'a mut [u16],
) -> &'a mut [u16]
    ensures { HandedBack (network_of network.now) (columns_of shortcuts.now) row (length room.old) result.now }
{
    let n = open_into(network, shortcuts, row, room);
    &mut room[..n]
}
