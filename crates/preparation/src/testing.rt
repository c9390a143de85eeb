// Which shortcuts from a node are called for: the sums past v are noted, and sifted by what two witness searches tell.
ghost use Rattle.std.specs.Prelude.{◌≡◌, ◌<◌, ◌≤◌, length, get_or};
ghost use Rattle.network.specs.Lent.{network_of, columns_of};
ghost use Rattle.network.specs.Answers.{Decides};
ghost use Rattle.network.specs.Network.{nodes};
ghost use Rattle.network.specs.Rows.{table};
ghost use Rattle.search.specs.Witness.{turn_of, node_count, row_count, told_at};
ghost use Rattle.preparation.specs.Preparing.{InTurn, Neighbours, Tested, into_at};
ghost use Rattle.preparation.specs.Sifting.{cost_read, SumNoted, SumsNoted, TestFits};
ghost use Rattle.preparation.specs.Sifting.{BoundsSums, Prevails, SiftedAt, SiftedAll, BoundsMore, Weighed};

use crate::slots::{into_slot, marked, out_slot, row_noted, sum_noted, unmark, write_sum};
use columns::at;
use network::lent::{Network, Shortcuts};
use network::rows::row_at;
use network::weight::Weight;
use search::witness::{Turn, witness};

// What the row r costs.
fn cost_at(network: &Network, shortcuts: &Shortcuts, r: usize) -> Weight
    ensures { result ≡ cost_read (network_of network.now) (columns_of shortcuts.now) r }
{
    row_at(network, shortcuts, r).cost()
}

// Notes the sum of the row from u to v, which costs `into`, and the row from v to w. Answers the heavier of it and the bound.
fn note_sum(
    network: &Network,
    shortcuts: &Shortcuts,
    nodes: usize,
    u: usize,
    into: Weight,
    bound: Weight,
    w: usize,
    wide: &mut [u64],
    narrow: &mut [u32],
) -> Weight
    requires { (nodes ≤ 512) × (w < nodes) }
    ensures { SumNoted (cost_read (network_of network.now) (columns_of shortcuts.now)) nodes u into bound w wide.old narrow.old wide.new narrow.new result }
{
    match row_noted(narrow, out_slot(nodes, w)) {
        Some(out) if w != u => {
            let sum = into.plus(cost_at(network, shortcuts, out));
            write_sum(nodes, wide, narrow, w, sum);
            bound.max(sum)
        }
        _ => {
            unmark(nodes, narrow, w);
            bound
        }
    }
}

// Notes the sums past v from u to every other node. Answers the heaviest, up to which witnesses are searched for.
fn note_sums(
    network: &Network,
    shortcuts: &Shortcuts,
    nodes: usize,
    u: usize,
    wide: &mut [u64],
    narrow: &mut [u32],
) -> Weight
    requires { TestFits nodes u (length wide.old) (length narrow.old) }
    ensures { SumsNoted (cost_read (network_of network.now) (columns_of shortcuts.now)) nodes u (cost_read (network_of network.now) (columns_of shortcuts.now) (get_or narrow.old (into_at nodes u) 0)) nodes wide.old narrow.old wide.new narrow.new result }
{
    let into = cost_at(network, shortcuts, at(narrow, into_slot(nodes, u)) as usize);
    let mut bound = Weight::ZERO;
    for w in 0..nodes {
        bound = note_sum(network, shortcuts, nodes, u, into, bound, w, wide, narrow);
    }
    bound
}

// Whether a sum prevails over what a search told: no path is lighter, and of those around v each is heavier. `around` is the flag of the search.
fn prevails(around: bool, told: Weight, sum: Weight) -> bool
    ensures { Decides result (Prevails around told sum) }
{
    if around {
        sum.lighter(told)
    } else {
        !told.lighter(sum)
    }
}

// What the search told of the node w: it promises to tell its weights in front of both rooms. How labels stand (`labels::label_at` reads alike) is the
// search's own.
fn label_told(wide: &[u64], narrow: &[u32], w: usize) -> Weight
    requires { w < 512 }
    ensures { result ≡ told_at wide.now narrow.now w }
{
    Weight {
        time: at(wide, w),
        edges: at(narrow, 2 * w),
    }
}

// Drops the mark of the node w where its sum does not prevail.
fn sift_mark(nodes: usize, around: bool, w: usize, wide: &[u64], narrow: &mut [u32])
    requires { (nodes ≤ 512) × (w < nodes) }
    ensures { SiftedAt nodes around w wide.now narrow.old narrow.new }
{
    if !marked(nodes, narrow, w) {
        return;
    }
    let told = label_told(wide, narrow, w);
    let sum = sum_noted(nodes, wide, narrow, w);
    if !prevails(around, told, sum) {
        unmark(nodes, narrow, w);
    }
}

// Drops every mark whose sum does not prevail over what the search told.
fn sift(nodes: usize, around: bool, wide: &[u64], narrow: &mut [u32])
    requires { nodes ≤ 512 }
    ensures { SiftedAll nodes around nodes wide.now narrow.old narrow.new }
{
    for w in 0..nodes {
        sift_mark(nodes, around, w, wide, narrow);
    }
}

// The heavier of the bound and, where the node w is marked, its sum.
fn bound_mark(nodes: usize, bound: Weight, w: usize, wide: &[u64], narrow: &[u32]) -> Weight
    requires { (nodes ≤ 512) × (w < nodes) }
    ensures { BoundsMore nodes wide.now narrow.now w bound result }
{
    if marked(nodes, narrow, w) {
        bound.max(sum_noted(nodes, wide, narrow, w))
    } else {
        bound
    }
}

// The heaviest sum that is still marked: no witness is searched for beyond it.
fn bound_marks(nodes: usize, wide: &[u64], narrow: &[u32]) -> Weight
    requires { nodes ≤ 512 }
    ensures { BoundsSums nodes wide.now narrow.now nodes result }
{
    let mut bound = Weight::ZERO;
    for w in 0..nodes {
        bound = bound_mark(nodes, bound, w, wide, narrow);
    }
    bound
}

// Searches from u up to the bound, around v or not, and sifts the marks by what the search told.
fn weigh(turn: &Turn, u: usize, bound: Weight, wide: &mut [u64], narrow: &mut [u32])
    requires test_fits { TestFits (node_count (turn_of turn.now)) u (length wide.old) (length narrow.old) }
    requires few_rows { row_count (turn_of turn.now) ≤ 4096 }
    ensures { Weighed (turn_of turn.now) u bound (node_count (turn_of turn.now)) wide.old narrow.old wide.new narrow.new }
{
    witness(turn, u, bound, wide, narrow);
    sift(turn.network.node_ranks.len(), turn.around, wide, narrow);
}

// Tests, for each node w, whether v calls for a shortcut from u to w.
pub(crate) fn test_from(
    network: &Network,
    shortcuts: &Shortcuts,
    v: usize,
    u: usize,
    wide: &mut [u64],
    narrow: &mut [u32],
)
    requires in_turn { InTurn (network_of network.now) (columns_of shortcuts.now) v (length wide.old) (length narrow.old) }
    requires neighbours { Neighbours (network_of network.now) (table (columns_of shortcuts.now)) v narrow.old }
    requires u_bound { (u < nodes (network_of network.now)) × (get_or narrow.old (into_at (nodes (network_of network.now)) u) 0 ≡ 4096 → ⊥) }
    ensures { Tested (network_of network.now) (table (columns_of shortcuts.now)) v u wide.old narrow.old wide.new narrow.new }
{
    let bound = note_sums(
        network,
        shortcuts,
        network.node_modes.len(),
        u,
        wide,
        narrow,
    );
    let mut turn = Turn {
        network: *network,
        shortcuts: *shortcuts,
        node: v,
        around: false,
    };
    weigh(&turn, u, bound, wide, narrow);
    let left = bound_marks(network.node_modes.len(), wide, narrow);
    turn.around = true;
    weigh(&turn, u, left, wide, narrow);
}
