// Rows: the edges, then the shortcuts.
ghost use Rattle.std.specs.Prelude.{◌≡◌};
ghost use Rattle.network.specs.Answers.{row_read, tail_read};
ghost use Rattle.network.specs.Lent.{network_of, columns_of};
ghost use Rattle.network.specs.Rows.{cost, edge_row, shortcut};

use crate::lent::{Network, Shortcuts};
use crate::weight::Weight;
use columns::at;

#[derive(Clone, Copy, Debug, PartialEq, Eq)]
pub struct Row {
    pub tail: u16,
    pub head: u16,
    pub mode: u8,
    pub length: u32,
    pub count: u16,
    pub first: u16,
    pub second: u16,
}

impl Row {
    // What the row costs: the one place that tells.
    pub fn cost(self) -> Weight
        ensures { result ≡ cost self }
    {
        Weight {
            time: self.length as u64,
            edges: self.count as u32,
        }
    }
}

// The edge e as a row.
#[inline(always)]
fn edge_row(network: &Network, e: usize) -> Row
    ensures { result ≡ edge_row (network_of network.now) e }
{
    Row {
        tail: at(network.tails, e),
        head: at(network.heads, e),
        mode: at(network.modes, e),
        length: at(network.lengths, e) as u32,
        count: 1,
        first: 0,
        second: 0,
    }
}

// The shortcut i of the columns.
#[inline(always)]
fn shortcut_row(shortcuts: &Shortcuts, i: usize) -> Row
    ensures { result ≡ shortcut (columns_of shortcuts.now) i }
{
    Row {
        tail: at(shortcuts.tails, i),
        head: at(shortcuts.heads, i),
        mode: at(shortcuts.modes, i),
        length: at(shortcuts.lengths, i),
        count: at(shortcuts.counts, i),
        first: at(shortcuts.firsts, i),
        second: at(shortcuts.seconds, i),
    }
}

// The row r: an edge, then a shortcut. In line, for the check of the table, which reads each row and its children.
#[inline(always)]
pub(crate) fn row_in_line(network: &Network, shortcuts: &Shortcuts, r: usize) -> Row
    ensures { result ≡ row_read (network_of network.now) (columns_of shortcuts.now) r }
{
    if r < network.tails.len() {
        return edge_row(network, r);
    }
    let i = r - network.tails.len();
    shortcut_row(shortcuts, i)
}

// The same for the searches, with no word to the compiler: they go past most rows by their tail, and their loops stay short where this is called.
pub fn row_at(network: &Network, shortcuts: &Shortcuts, r: usize) -> Row
    ensures { result ≡ row_read (network_of network.now) (columns_of shortcuts.now) r }
{
    row_in_line(network, shortcuts, r)
}

// The tail of the row r, read alone: whoever looks for the rows from a node reads no more of all others.
pub fn tail_at(network: &Network, shortcuts: &Shortcuts, r: usize) -> u16
    ensures { result ≡ tail_read network.now.tails.now shortcuts.now.tails.now r }
{
    if r < network.tails.len() {
        return at(network.tails, r);
    }
    at(shortcuts.tails, r - network.tails.len())
}
