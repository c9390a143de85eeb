// The rule of the transfer nodes, in one pass over the edges.
ghost use Rattle.network.specs.Answers.{Found};
ghost use Rattle.network.specs.Lent.{network_of};
ghost use Rattle.network.specs.Network.{nodes, TransferFine};
ghost use Rattle.network.specs.Steps.{Lowered, LinkSeen};

use crate::lent::Network;
use crate::order::CORE;
use columns::{at, node_at};

// The lower of `low` and the node v, v counting only where it is not core.
fn lower_unless_core(node_ranks: &[u16], v: usize, low: usize) -> usize
    ensures { Lowered node_ranks.now v low result }
{
    if v < low && at(node_ranks, v) != CORE {
        v
    } else {
        low
    }
}

// The same for both ends of the edge e, where it is a link.
fn lower_by_link(network: &Network, e: usize, low: usize) -> usize
    ensures { LinkSeen (network_of network.now) e low result }
{
    if at(network.modes, e) != 0 {
        return low;
    }
    let by_tail = lower_unless_core(network.node_ranks, node_at(network.tails, e), low);
    lower_unless_core(network.node_ranks, node_at(network.heads, e), by_tail)
}

// The lowest transfer node that is not core. No `find`, which would read all edges for each node.
pub(crate) fn first_bad_transfer(network: &Network) -> Option<usize>
    ensures { Found (TransferFine (network_of network.now)) 0 (nodes (network_of network.now)) result }
{
    let nodes = network.node_modes.len();
    // Above every node there is: with an Option in its place the lower of two nodes would need a case for none yet.
    let mut low = nodes;
    for e in 0..network.tails.len() {
        low = lower_by_link(network, e, low);
    }
    if low < nodes { Some(low) } else { None }
}
