// The least rows into and out of the node whose turn it is.
ghost use Rattle.std.specs.Prelude.{◌≡◌, ℕ, ◌*◌, ◌<◌, ◌≤◌, length};
ghost use Rattle.network.specs.Lent.{network_of, columns_of};
ghost use Rattle.network.specs.Answers.{row_read};
ghost use Rattle.network.specs.Rows.{cost, table};
ghost use Rattle.preparation.specs.Noting.{Cleared, Noted, EndNoted, RowNoted};
ghost use Rattle.preparation.specs.Preparing.{InTurn, Neighbours};

use crate::slots::{clear_slot, into_slot, note_row_at, out_slot, row_noted};
use network::lent::{Network, Shortcuts};
use network::order::contracted_before;
use network::rows::row_at;
use network::weight::Weight;

// Notes that no row leads into v or out of v.
fn clear_slots(nodes: usize, narrow: &mut [u32])
    requires { (nodes ≤ 512) × (4 * nodes ≤ length narrow.old) }
    ensures { Cleared nodes narrow.old narrow.new }
{
    for i in 2 * nodes..4 * nodes {
        clear_slot(narrow, i);
    }
}

// Notes the row r, which costs `new`, at the slot if no row or a heavier one is noted there.
fn note(
    network: &Network,
    shortcuts: &Shortcuts,
    r: usize,
    new: Weight,
    slot: usize,
    narrow: &mut [u32],
)
    requires { r < 4096 }
    ensures { Noted (λ s. cost (row_read (network_of network.now) (columns_of shortcuts.now) s)) new r slot narrow.old narrow.new }
{
    match row_noted(narrow, slot) {
        Some(noted) if !new.lighter(row_at(network, shortcuts, noted).cost()) => {}
        _ => note_row_at(narrow, slot, r),
    }
}

// Notes the row r, which costs `new`, at the slot if its other end stands in v's turn.
fn note_end(
    network: &Network,
    shortcuts: &Shortcuts,
    v: usize,
    other: usize,
    r: usize,
    new: Weight,
    slot: usize,
    narrow: &mut [u32],
)
    requires { r < 4096 }
    ensures { EndNoted network.now.node_ranks.now (λ s. cost (row_read (network_of network.now) (columns_of shortcuts.now) s)) v other new r slot narrow.old narrow.new }
{
    if !contracted_before(network.node_ranks, other, v) {
        note(network, shortcuts, r, new, slot, narrow);
    }
}

// Reads the row r and notes it where it leads into v or out of v and its other end stands.
fn note_row(
    network: &Network,
    shortcuts: &Shortcuts,
    nodes: usize,
    v: usize,
    r: usize,
    narrow: &mut [u32],
)
    requires { (nodes ≤ 512) × (r < 4096) }
    ensures { RowNoted network.now.node_ranks.now (λ s. row_read (network_of network.now) (columns_of shortcuts.now) s) nodes v r narrow.old narrow.new }
{
    let row = row_at(network, shortcuts, r);
    let tail = row.tail as usize;
    let head = row.head as usize;
    if head == v {
        note_end(
            network,
            shortcuts,
            v,
            tail,
            r,
            row.cost(),
            into_slot(nodes, tail),
            narrow,
        );
    } else if tail == v {
        note_end(
            network,
            shortcuts,
            v,
            head,
            r,
            row.cost(),
            out_slot(nodes, head),
            narrow,
        );
    }
}

// Notes for each node x the least row from x to v and the least row from v to x, in one pass over the rows.
// By a call, as `next_turn`.
#[inline(never)]
pub(crate) fn find_neighbours(
    network: &Network,
    shortcuts: &Shortcuts,
    v: usize,
    narrow: &mut [u32],
)
    requires { (wides : ℕ) × InTurn (network_of network.now) (columns_of shortcuts.now) v wides (length narrow.old) }
    ensures neighbours { Neighbours (network_of network.now) (table (columns_of shortcuts.now)) v narrow.new }
    ensures narrow_len_unchanged { length narrow.new ≡ length narrow.old }
{
    clear_slots(network.node_modes.len(), narrow);
    for r in 0..network.tails.len() + shortcuts.tails.len() {
        note_row(network, shortcuts, network.node_modes.len(), v, r, narrow);
    }
}
