// The lent shortcut rows, and what is written to them.
ghost use Rattle.std.specs.Prelude.{◌≡◌, ◌++◌, ◌-◌, ◌<◌, ◌≤◌, length, take, replicate};
ghost use Rattle.network.specs.Lent.{room_columns, front_columns, SameRoom};
ghost use Rattle.network.specs.Rows.{Even, table};
ghost use Rattle.preparation.specs.Answers.{Holds};
ghost use Rattle.preparation.specs.Preparing.{put_row, Appended};
ghost use Rattle.preparation.specs.Writing.{called_to, all_called};

use crate::called::CalledFrom;
use columns::rooms::fill;
use columns::{Entry, put};
use network::lent::ShortcutRoom;
use network::rows::Row;

// Writes the row x at i.
fn put_row(shortcuts: &mut ShortcutRoom, i: usize, x: Row)
    ensures row { room_columns shortcuts.new ≡ put_row (room_columns shortcuts.old) i x }
    ensures same_room { SameRoom shortcuts.old shortcuts.new }
{
    put(shortcuts.tails, i, x.tail);
    put(shortcuts.heads, i, x.head);
    put(shortcuts.modes, i, x.mode);
    put(shortcuts.lengths, i, x.length);
    put(shortcuts.counts, i, x.count);
    put(shortcuts.firsts, i, x.first);
    put(shortcuts.seconds, i, x.second);
}

// Writes the shortcut to w behind the first `made` rows, if it is called for. Answers how many rows there are then, or None where it does not keep to
// the limit.
fn write_called(
    shortcuts: &mut ShortcutRoom,
    called: &CalledFrom,
    w: usize,
    made: usize,
    limit: usize,
) -> Option<usize>
    requires even { Even (room_columns shortcuts.old) }
    requires w_bound { (w < called.now.nodes) × (made ≤ limit) × (limit ≤ 4096) × (limit ≤ length shortcuts.old.tails.now) }
    ensures appended { Appended (room_columns shortcuts.old) made limit (called_to called.now w) (room_columns shortcuts.new) result }
    ensures same_room { SameRoom shortcuts.old shortcuts.new }
{
    if !called.calls(w) {
        return Some(made);
    }
    if limit <= made {
        return None;
    }
    put_row(shortcuts, made, called.row(w));
    Some(made + 1)
}

// Writes the shortcuts that are called for behind the first `made` rows. Answers how many rows there are then, or None where they do not keep to the
// limit.
pub(crate) fn write_from(
    shortcuts: &mut ShortcutRoom,
    called: &CalledFrom,
    made: usize,
    limit: usize,
) -> Option<usize>
    requires even { Even (room_columns shortcuts.old) }
    requires limit_bound { (made ≤ limit) × (limit ≤ 4096) × (limit ≤ length shortcuts.old.tails.now) }
    ensures appended { Appended (room_columns shortcuts.old) made limit (all_called called.now called.now.nodes) (room_columns shortcuts.new) result }
    ensures same_room { SameRoom shortcuts.old shortcuts.new }
{
    let mut rows = made;
    for w in 0..called.nodes {
        rows = write_called(shortcuts, called, w, rows, limit)?;
    }
    Some(rows)
}

// Zeroes a column behind its first n entries, in one go.
fn zero_behind<T: Entry>(column: &mut [T], n: usize)
    requires { n ≤ length column.old }
    ensures { column.new ≡ take n column.old ++ replicate (length column.old - n) T.zero }
{
    fill(&mut column[n..], T::zero());
}

// Zeroes the rows behind the first `made`.
pub(crate) fn zero_rows(shortcuts: &mut ShortcutRoom, made: usize)
    requires { Even (room_columns shortcuts.old) × (made ≤ length shortcuts.old.tails.now) }
    ensures holds { Holds (room_columns shortcuts.new) (length shortcuts.old.tails.now) (table (front_columns made (room_columns shortcuts.old))) }
    ensures same_room { SameRoom shortcuts.old shortcuts.new }
{
    zero_behind(shortcuts.tails, made);
    zero_behind(shortcuts.heads, made);
    zero_behind(shortcuts.modes, made);
    zero_behind(shortcuts.lengths, made);
    zero_behind(shortcuts.counts, made);
    zero_behind(shortcuts.firsts, made);
    zero_behind(shortcuts.seconds, made);
}
