// The rule of the edges.
ghost use Rattle.network.specs.Answers.{Decides, Found};
ghost use Rattle.network.specs.Lent.{network_of};
ghost use Rattle.network.specs.Network.{edges, EdgeFine};

use crate::lent::Network;
use columns::{at, node_at};

// Whether the edge e keeps its rule.
fn edge_fine(network: &Network, e: usize) -> bool
    ensures { Decides result (EdgeFine (network_of network.now) e) }
{
    let tail = node_at(network.tails, e);
    let head = node_at(network.heads, e);
    let mode = at(network.modes, e);
    let length = at(network.lengths, e);
    let nodes = network.node_modes.len();
    // A link, whose mode is 0, joins any two different nodes.
    tail < nodes
        && head < nodes
        && tail != head
        && length != 0
        && (mode == 0
            || mode <= 7
                && at(network.node_modes, tail) == mode
                && at(network.node_modes, head) == mode)
}

// The lowest edge that breaks its rule: one `find`, as of the other rules, over a promise of its own.
pub(crate) fn first_bad_edge(network: &Network) -> Option<usize>
    ensures { Found (EdgeFine (network_of network.now)) 0 (edges (network_of network.now)) result }
{
    (0..network.tails.len()).find(|e| !edge_fine(network, *e))
}
