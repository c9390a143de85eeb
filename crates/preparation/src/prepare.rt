// Preparation: the shortcuts of a network, written to the lent rows.
ghost use Rattle.std.specs.Prelude.{◌+◌, ◌<◌, ◌≤◌, length};
ghost use Rattle.network.specs.Lent.{network_of, columns_of, room_columns, front_columns, SameRoom};
ghost use Rattle.network.specs.Answers.{Ruled};
ghost use Rattle.network.specs.Network.{nodes, edges, Sound};
ghost use Rattle.network.specs.Rows.{Even, table};
ghost use Rattle.search.specs.Orders.{Roomy};
ghost use Rattle.preparation.specs.Answers.{prepare_order, PreparedInto};
ghost use Rattle.preparation.specs.Preparing.{InTurn, Neighbours, SameRooms, TurnFrom, Turned, AllTurned, Most};

use crate::called::CalledFrom;
use crate::lent::{write_from, zero_rows};
use crate::neighbours::find_neighbours;
use crate::slots::{into_slot, row_noted};
use crate::testing::test_from;
use crate::turns::next_turn;
use columns::at;
use columns::rooms::clear;
use network::answer::Answer;
use network::lent::{Network, ShortcutRoom, Shortcuts};
use network::refusal::{Fault, Refusal};
use network::table::even_rows;
use search::room::check_room;

// Edges and shortcuts together.
const MOST_ROWS: usize = 4096;

// The turn of a node: `stood` shortcuts stood before it, and there may be up to `limit` in all. What is known of the lent rows and rooms (`InTurn`, `Even`,
// `Neighbours`, `TestFits`) stays in the contracts, here and in the files below: they are written to between two calls, and a field that refers to them
// would have to be kept true at each write.
#[derive(Clone, Copy)]
struct Turn<'a> {
    network: Network<'a>,
    node: usize,
    stood: usize,
    limit: usize,
    ghost in_order: { (stood ≤ limit) × (limit ≤ 4096) },
}

// The shortcuts from u in a turn: the test reads the rows that stood, what is called for goes behind the first `made`. Answers how many there are
// then, or None where they do not keep to the limit.
#[tactic(auto, using(crate::proofs::Turning::skip_from))]
fn contract_from(
    turn: &Turn,
    shortcuts: &mut ShortcutRoom,
    u: usize,
    made: usize,
    wide: &mut [u64],
    narrow: &mut [u32],
) -> Option<usize>
    requires in_turn { InTurn (network_of turn.now.network) (front_columns turn.now.stood (room_columns shortcuts.old)) turn.now.node (length wide.old) (length narrow.old) }
    requires neighbours { Neighbours (network_of turn.now.network) (table (front_columns turn.now.stood (room_columns shortcuts.old))) turn.now.node narrow.old }
    requires even { Even (room_columns shortcuts.old) × (u < nodes (network_of turn.now.network)) × (turn.now.stood ≤ made) × (made ≤ turn.now.limit) × (turn.now.limit ≤ length shortcuts.old.tails.now) }
    ensures turn_from { TurnFrom (network_of turn.now.network) (table (front_columns turn.now.stood (room_columns shortcuts.old))) turn.now.node u turn.now.limit made (room_columns shortcuts.old) (room_columns shortcuts.new) wide.old narrow.old wide.new narrow.new result }
    ensures same_room { SameRoom shortcuts.old shortcuts.new }
{
    let nodes = turn.network.node_modes.len();
    if row_noted(narrow, into_slot(nodes, u)).is_none() {
        return Some(made);
    }
    let stood = shortcuts.front(turn.stood);
    test_from(&turn.network, &stood, turn.node, u, wide, narrow);
    let called = CalledFrom {
        nodes,
        mode: at(turn.network.node_modes, turn.node),
        from: u,
        wide,
        narrow,
    };
    write_from(shortcuts, &called, made, turn.limit)
}

// The shortcuts of a turn, from one node after the other.
fn contract_each(
    turn: &Turn,
    shortcuts: &mut ShortcutRoom,
    wide: &mut [u64],
    narrow: &mut [u32],
) -> Option<usize>
    requires in_turn { InTurn (network_of turn.now.network) (front_columns turn.now.stood (room_columns shortcuts.old)) turn.now.node (length wide.old) (length narrow.old) }
    requires neighbours { Neighbours (network_of turn.now.network) (table (front_columns turn.now.stood (room_columns shortcuts.old))) turn.now.node narrow.old }
    requires even { Even (room_columns shortcuts.old) × (turn.now.limit ≤ length shortcuts.old.tails.now) }
    ensures turned { Turned (network_of turn.now.network) turn.now.node turn.now.stood turn.now.limit (room_columns shortcuts.old) (room_columns shortcuts.new) result }
    ensures same_rooms { SameRooms wide.old narrow.old wide.new narrow.new }
    ensures same_room { SameRoom shortcuts.old shortcuts.new }
{
    let mut made = turn.stood;
    for u in 0..turn.network.node_modes.len() {
        made = contract_from(turn, shortcuts, u, made, wide, narrow)?;
    }
    Some(made)
}

// A turn. Answers how many shortcuts there are then, or None where they do not keep to the limit.
fn contract(
    turn: &Turn,
    shortcuts: &mut ShortcutRoom,
    wide: &mut [u64],
    narrow: &mut [u32],
) -> Option<usize>
    requires in_turn { InTurn (network_of turn.now.network) (front_columns turn.now.stood (room_columns shortcuts.old)) turn.now.node (length wide.old) (length narrow.old) }
    requires even { Even (room_columns shortcuts.old) × (turn.now.limit ≤ length shortcuts.old.tails.now) }
    ensures turned { Turned (network_of turn.now.network) turn.now.node turn.now.stood turn.now.limit (room_columns shortcuts.old) (room_columns shortcuts.new) result }
    ensures same_rooms { SameRooms wide.old narrow.old wide.new narrow.new }
    ensures same_room { SameRoom shortcuts.old shortcuts.new }
{
    find_neighbours(
        &turn.network,
        &shortcuts.front(turn.stood),
        turn.node,
        narrow,
    );
    contract_each(turn, shortcuts, wide, narrow)
}

// All turns, one after the other; there are no more than nodes. Answers how many shortcuts there are, or None where they do not keep to the limit.
fn contract_all(
    network: &Network,
    shortcuts: &mut ShortcutRoom,
    limit: usize,
    wide: &mut [u64],
    narrow: &mut [u32],
) -> Option<usize>
    requires sound { Sound (network_of network.now) × Roomy (network_of network.now) (length wide.old) (length narrow.old) }
    requires even { Even (room_columns shortcuts.old) × (edges (network_of network.now) + limit ≤ 4096) × (limit ≤ length shortcuts.old.tails.now) }
    ensures all_turned { AllTurned (network_of network.now) limit (room_columns shortcuts.old) (room_columns shortcuts.new) result }
    ensures same_rooms { SameRooms wide.old narrow.old wide.new narrow.new }
    ensures same_room { SameRoom shortcuts.old shortcuts.new }
{
    let mut made = 0;
    let mut last = None;
    for turns in 0..network.node_modes.len() {
        let Some(v) = next_turn(network.node_ranks, last) else {
            return Some(made);
        };
        let turn = Turn {
            network: *network,
            node: v,
            stood: made,
            limit,
        };
        made = contract(&turn, shortcuts, wide, narrow)?;
        last = Some(v);
    }
    Some(made)
}

// Whether 1, 11, 2, 3, 4 are all kept, or the first that is not. `wides` and `narrows` tell how long the work rooms are.
fn admit(
    network: &Network,
    shortcuts: &Shortcuts,
    wides: usize,
    narrows: usize,
) -> Result<(), Refusal>
    ensures { Ruled (prepare_order (network_of network.now) (columns_of shortcuts.now) wides narrows) result }
{
    if !even_rows(shortcuts) {
        return Err(Fault::Sizes.at(0));
    }
    check_room(network, wides, narrows)
}

// How many shortcuts there may be with so many edges in so many lent rows: a `min` that promises (`Most`).
fn most_shortcuts(edges: usize, lent: usize) -> usize
    requires { edges ≤ 2048 }
    ensures { Most edges lent result }
{
    lent.min(MOST_ROWS - edges)
}

// Writes the shortcuts of the network to the lent rows, and zeroes the rows behind them.
pub fn prepare(
    network: &Network,
    shortcuts: &mut ShortcutRoom,
    wide: &mut [u64],
    narrow: &mut [u32],
) -> Answer
    ensures prepared { PreparedInto (network_of network.now) (room_columns shortcuts.old) (room_columns shortcuts.new) wide.old wide.new narrow.old narrow.new result }
    ensures same_room { SameRoom shortcuts.old shortcuts.new }
{
    if let Err(refusal) = admit(network, &shortcuts.read(), wide.len(), narrow.len()) {
        return refusal.into();
    }
    let limit = most_shortcuts(network.tails.len(), shortcuts.tails.len());
    let made = contract_all(network, shortcuts, limit, wide, narrow);
    clear(wide, narrow);
    let Some(made) = made else {
        zero_rows(shortcuts, 0);
        return Fault::ShortcutSpace.at(0).into();
    };
    zero_rows(shortcuts, made);
    Answer {
        number: Answer::ANSWERED,
        place: 0,
        time: 0,
        count: made as u32,
    }
}
