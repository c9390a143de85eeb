// The witness search: the least weights from a node over the rides that stand in v's turn, up to a bound.
// It goes by the plan of `engine` and `leave`, over nodes in place of places; what can be one (pick, offer, the labels) is. The steps between promise
// other things of other rows, so that one function for both would have two contracts. `Spacious` is of the rooms, which stay side by side (`labels`),
// and `Addable` of a weight that is read from them: neither has a struct to stand in.
ghost use Rattle.std.specs.Prelude.{◌≡◌, ℕ, ◌+◌, ◌*◌, ◌<◌, ◌≤◌, length, get_or};
ghost use Rattle.network.specs.Answers.{Decides, tail_read};
ghost use Rattle.search.specs.Labels.{label, mark};
ghost use Rattle.search.specs.Witness.{turn_of, node_count, row_count, Open, WitnessFits, Witnessed};
ghost use Rattle.search.specs.WitnessSteps.{Narrow, Addable, Passed, Emptied, Kept, Closed, Spacious, Opened, Attempted, Departed, Spread};

use crate::labels::{Step, label_at, label_inside, settle, waits, write};
use crate::moves::offer;
use crate::pick::pick;
use network::lent::{Network, Shortcuts};
use network::order::contracted_before;
use network::rows::row_at;
use network::weight::Weight;

// What a search is asked of: the columns, whatever they hold, the node whose turn it is, and whether paths must avoid it.
#[derive(Clone, Copy)]
pub struct Turn<'a> {
    pub network: Network<'a>,
    pub shortcuts: Shortcuts<'a>,
    pub node: usize,
    // A flag, as `Witnessed` has it: it decides one test here (`open`) and one in preparation (`prevails`), and a closure for each would say no more.
    pub around: bool,
}

// Whether the search can be made: few enough nodes and rows, a node to start from, and rooms that are large enough.
fn fits(turn: &Turn, from: usize, wides: usize, narrows: usize) -> bool
    ensures { Decides result (WitnessFits (node_count (turn_of turn.now)) (row_count (turn_of turn.now)) from wides narrows) }
{
    let nodes = turn.network.node_ranks.len();
    let edges = turn.network.tails.len();
    nodes <= 512
        && from < nodes
        && nodes <= wides
        && 2 * nodes <= narrows
        && edges <= 4096
        && turn.shortcuts.tails.len() <= 4096 - edges
}

// No place has a label, and all wait.
fn empty(wide: &mut [u64], narrow: &mut [u32], nodes: usize)
    requires { (nodes ≤ 8192) × (nodes ≤ length wide.old) × (2 * nodes ≤ length narrow.old) }
    ensures { Passed Emptied nodes wide.old narrow.old wide.new narrow.new }
{
    for p in 0..nodes {
        write(wide, narrow, p, Weight::NONE, 1);
    }
}

// The label that is told of the place p in the end: none where it still waits.
fn kept(wide: &[u64], narrow: &[u32], p: usize) -> Weight
    requires { (p < length wide.now) × (2 * p + 1 < length narrow.now) }
    ensures { Kept (mark narrow.now p) (label wide.now narrow.now p) result }
{
    if waits(narrow, p) {
        return Weight::NONE;
    }
    label_inside(wide, narrow, p)
}

// Only what is told stays in the rooms.
fn close(wide: &mut [u64], narrow: &mut [u32], nodes: usize)
    requires { (nodes ≤ 8192) × (nodes ≤ length wide.old) × (2 * nodes ≤ length narrow.old) }
    ensures { Passed Closed nodes wide.old narrow.old wide.new narrow.new }
{
    for p in 0..nodes {
        let w = kept(wide, narrow, p);
        write(wide, narrow, p, w, 0);
    }
}

// Whether x may be an end of a ride: a node that stands and, where v is avoided, is not v.
fn open(turn: &Turn, x: usize) -> bool
    ensures { Decides result (Open turn.now.network.node_ranks.now turn.now.node turn.now.around x) }
{
    x < turn.network.node_ranks.len()
        && !contracted_before(turn.network.node_ranks, x, turn.node)
        && (x != turn.node || !turn.around)
}

// Tries the row r, which leads from the node u, labelled w. A call, and not in line: the loop over the rows, which goes past nearly all of them, is to
// have the registers to itself.
#[inline(never)]
fn attempt(turn: &Turn, u: usize, w: Weight, r: usize, wide: &mut [u64], narrow: &mut [u32])
    requires from { tail_read turn.now.network.tails.now turn.now.shortcuts.tails.now r ≡ u }
    requires spacious { Spacious (turn_of turn.now) (length wide.old) (length narrow.old) }
    requires r_bound { r < row_count (turn_of turn.now) }
    requires addable { Addable (turn_of turn.now) w }
    ensures { Attempted (turn_of turn.now) u w (λ s x. s ≡ r) wide.old narrow.old wide.new narrow.new }
{
    let row = row_at(&turn.network, &turn.shortcuts, r);
    let head = row.head as usize;
    if row.mode == 0 || !open(turn, row.tail as usize) || !open(turn, head) {
        return;
    }
    let new = w.plus(row.cost());
    let step = Step {
        label: new,
        row: r,
        low: 0,
    };
    offer(wide, narrow, head, step);
}

// Tries the rows that lead from the node u, labelled w, among those whose tails are lent, the row `first` and on. Of any other row it reads its tail alone.
fn try_column(
    turn: &Turn,
    tails: &[u16],
    first: usize,
    u: usize,
    w: Weight,
    wide: &mut [u64],
    narrow: &mut [u32],
)
    requires column { (i : ℕ) → i < length tails.now → tail_read turn.now.network.tails.now turn.now.shortcuts.tails.now (first + i) ≡ get_or tails.now i 0 }
    requires spacious { Spacious (turn_of turn.now) (length wide.old) (length narrow.old) }
    requires in_table { first + length tails.now ≤ row_count (turn_of turn.now) }
    requires addable { Addable (turn_of turn.now) w }
    ensures { Attempted (turn_of turn.now) u w (λ s x. (first ≤ s) × (s < first + length tails.now)) wide.old narrow.old wide.new narrow.new }
{
    for i in 0..tails.len() {
        if tails[i] as usize == u {
            attempt(turn, u, w, first + i, wide, narrow);
        }
    }
}

// Tries every row from the node u, labelled w: the edges, then the shortcuts.
fn try_rows(turn: &Turn, u: usize, w: Weight, wide: &mut [u64], narrow: &mut [u32])
    requires spacious { Spacious (turn_of turn.now) (length wide.old) (length narrow.old) }
    requires addable { Addable (turn_of turn.now) w }
    ensures { Attempted (turn_of turn.now) u w (λ s x. s < row_count (turn_of turn.now)) wide.old narrow.old wide.new narrow.new }
{
    let edges = turn.network.tails.len();
    try_column(turn, turn.network.tails, 0, u, w, wide, narrow);
    try_column(turn, turn.shortcuts.tails, edges, u, w, wide, narrow);
}

// Settles the node u and tries every row from it.
fn leave(turn: &Turn, u: usize, wide: &mut [u64], narrow: &mut [u32])
    requires spacious { Spacious (turn_of turn.now) (length wide.old) (length narrow.old) }
    requires u_bound { u < node_count (turn_of turn.now) }
    requires addable { Addable (turn_of turn.now) (label wide.old narrow.old u) }
    ensures { Departed (turn_of turn.now) u wide.old narrow.old wide.new narrow.new }
{
    let w = label_at(wide, narrow, u);
    settle(narrow, u);
    try_rows(turn, u, w, wide, narrow);
}

// The rooms as the search begins: no place has a label but the start, and all wait.
fn begin(wide: &mut [u64], narrow: &mut [u32], nodes: usize, from: usize)
    requires { (nodes ≤ 512) × (from < nodes) × (nodes ≤ length wide.old) × (2 * nodes ≤ length narrow.old) }
    ensures { Opened nodes from wide.old narrow.old wide.new narrow.new }
{
    empty(wide, narrow, nodes);
    write(wide, narrow, from, Weight::ZERO, 1);
}

// Leaves nodes one after the other, the lightest first, until none is left or the lightest is heavier than the bound.
fn spread(turn: &Turn, from: usize, bound: Weight, wide: &mut [u64], narrow: &mut [u32])
    requires witness_fits { WitnessFits (node_count (turn_of turn.now)) (row_count (turn_of turn.now)) from (length wide.old) (length narrow.old) }
    requires narrow { Narrow (turn_of turn.now) }
    ensures { Spread (turn_of turn.now) from bound wide.old narrow.old wide.new narrow.new }
{
    let places = turn.network.node_ranks.len();
    begin(wide, narrow, places, from);
    while let Some(u) = pick(wide, narrow, places) {
        let w = label_at(wide, narrow, u);
        if bound.lighter(w) {
            return;
        }
        leave(turn, u, wide, narrow);
    }
}

// Reads nothing: tells the proof that every length and count is a number of its width, so that no sum of a path's is too large. The check knows
// it of a slice in hand, and not of one in a struct that is lent.
fn know_widths(lengths: &[u16], shortcut_lengths: &[u32], shortcut_counts: &[u16])
    ensures lengths { (i : ℕ) → get_or lengths.now i 0 ≤ 65535 }
    ensures shortcut_lengths { (i : ℕ) → get_or shortcut_lengths.now i 0 ≤ 4294967295 }
    ensures shortcut_counts { (i : ℕ) → get_or shortcut_counts.now i 0 ≤ 65535 }
{}

// Tells for every node x, at x of the 64-bit room and at 2x of the 32-bit room, the least weight of the paths from `from` to x over the rides
// that stand in v's turn, and that avoid v where `around`; NONE where it is heavier than the bound. Answers false, and touches nothing, where
// the search does not fit: `Witnessed`, and the theorem that it allows one result only, speak of that answer.
pub fn witness(
    turn: &Turn,
    from: usize,
    bound: Weight,
    wide: &mut [u64],
    narrow: &mut [u32],
) -> bool
    ensures { Witnessed (turn_of turn.now) from bound wide.old narrow.old wide.new narrow.new result }
{
    if !fits(turn, from, wide.len(), narrow.len()) {
        return false;
    }
    know_widths(
        turn.network.lengths,
        turn.shortcuts.lengths,
        turn.shortcuts.counts,
    );
    spread(turn, from, bound, wide, narrow);
    close(wide, narrow, turn.network.node_ranks.len());
    true
}
