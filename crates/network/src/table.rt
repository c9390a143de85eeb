// The check of the shortcut rows.
ghost use Rattle.network.specs.Answers.{Decides, Found, Ruled};
ghost use Rattle.network.specs.Lent.{network_of, columns_of};
ghost use Rattle.network.specs.Network.{edges};
ghost use Rattle.network.specs.Refusal.{rows_order};
ghost use Rattle.network.specs.Rows.{table, rows, Even, RowsSized, EndsFit, MeetsLow, OneMode, AddsUp, Joins, SoundRow};

use crate::lent::{Network, Shortcuts};
use crate::order::{CORE, contracted_before};
use crate::refusal::{Fault, Refusal};
use crate::rows::{Row, row_in_line};
use columns::at;

// Whether the columns agree in length.
pub fn even_rows(shortcuts: &Shortcuts) -> bool
    ensures { Decides result (Even (columns_of shortcuts.now)) }
{
    let rows = shortcuts.tails.len();
    shortcuts.heads.len() == rows
        && shortcuts.modes.len() == rows
        && shortcuts.lengths.len() == rows
        && shortcuts.counts.len() == rows
        && shortcuts.firsts.len() == rows
        && shortcuts.seconds.len() == rows
}

// Whether there are few enough rows, in columns that agree in length.
pub fn rows_sized(network: &Network, shortcuts: &Shortcuts) -> bool
    ensures { Decides result (RowsSized (network_of network.now) (columns_of shortcuts.now)) }
{
    let edges = network.tails.len();
    even_rows(shortcuts) && edges <= 4096 && shortcuts.tails.len() <= 4096 - edges
}

// Whether the rows a and b, one behind the other, lead from the tail of x to its head.
fn ends_fit(x: Row, a: Row, b: Row) -> bool
    ensures { Decides result (EndsFit x a b) }
{
    a.tail == x.tail && a.head == b.tail && b.head == x.head && x.tail != x.head
}

// Whether the node at which a row's children meet is contracted before both its ends.
fn meets_low(node_ranks: &[u16], meeting: usize, x: Row) -> bool
    ensures { Decides result (MeetsLow node_ranks.now meeting x) }
{
    at(node_ranks, meeting) != CORE
        && contracted_before(node_ranks, meeting, x.tail as usize)
        && contracted_before(node_ranks, meeting, x.head as usize)
}

fn one_mode(x: Row, a: Row, b: Row) -> bool
    ensures { Decides result (OneMode x a b) }
{
    a.mode == x.mode && b.mode == x.mode
}

// Whether the row x costs what the rows a and b cost together, within the bounds.
fn adds_up(x: Row, a: Row, b: Row) -> bool
    ensures { Decides result (AddsUp x a b) }
{
    x.length <= 33_488_385 && x.count <= 511 && x.cost() == a.cost().plus(b.cost())
}

// Whether the row x joins the rows a and b.
fn joins(node_ranks: &[u16], x: Row, a: Row, b: Row) -> bool
    ensures { Decides result (Joins node_ranks.now x a b) }
{
    ends_fit(x, a, b)
        && one_mode(x, a, b)
        && adds_up(x, a, b)
        && meets_low(node_ranks, a.head as usize, x)
}

// Whether the shortcut row r is sound.
fn row_sound(network: &Network, shortcuts: &Shortcuts, r: usize) -> bool
    requires { Even (columns_of shortcuts.now) }
    ensures { Decides result (SoundRow (network_of network.now) (table (columns_of shortcuts.now)) r) }
{
    let x = row_in_line(network, shortcuts, r);
    let first = x.first as usize;
    let second = x.second as usize;
    if r <= first || r <= second {
        return false;
    }
    let a = row_in_line(network, shortcuts, first);
    let b = row_in_line(network, shortcuts, second);
    joins(network.node_ranks, x, a, b)
}

// The lowest shortcut row that is not sound: one `find`, as of the other rules, over a promise of its own.
fn first_bad_row(network: &Network, shortcuts: &Shortcuts) -> Option<usize>
    requires { RowsSized (network_of network.now) (columns_of shortcuts.now) }
    ensures { Found (SoundRow (network_of network.now) (table (columns_of shortcuts.now))) (edges (network_of network.now)) (rows (network_of network.now) (table (columns_of shortcuts.now))) result }
{
    // Copies of their own: what they refer to is read once, and not for each row.
    let network = *network;
    let shortcuts = *shortcuts;
    let edges = network.tails.len();
    (edges..edges + shortcuts.tails.len()).find(|r| !row_sound(&network, &shortcuts, *r))
}

// The check of the shortcut rows of any network: number 1 for their sizes, and 10.
pub fn check_rows(network: &Network, shortcuts: &Shortcuts) -> Result<(), Refusal>
    ensures { Ruled (rows_order (network_of network.now) (columns_of shortcuts.now)) result }
{
    if !rows_sized(network, shortcuts) {
        return Err(Fault::Sizes.at(0));
    }
    match first_bad_row(network, shortcuts) {
        Some(row) => Err(Fault::Shortcut.at(row)),
        None => Ok(()),
    }
}
