// The rule of the nodes.
ghost use Rattle.std.specs.Prelude.{◌≡◌, ◌<◌};
ghost use Rattle.network.specs.Answers.{Decides, Found};
ghost use Rattle.network.specs.Lent.{network_of};
ghost use Rattle.network.specs.Network.{nodes, NodeFine};

use crate::lent::Network;
use columns::at;

// Whether the node v keeps its rule. Every u16 is a rank: it is read for that alone, and the compiler drops the read.
fn node_fine(network: &Network, v: usize) -> bool
    ensures { Decides result (NodeFine (network_of network.now) v) }
{
    let _rank = at(network.node_ranks, v);
    matches!(at(network.node_modes, v), 1..=7)
}

// The lowest node that breaks its rule: one `find`, as of the other rules, over a promise of its own.
pub(crate) fn first_bad_node(network: &Network) -> Option<usize>
    ensures { Found (NodeFine (network_of network.now)) 0 (nodes (network_of network.now)) result }
{
    (0..network.node_modes.len()).find(|v| !node_fine(network, *v))
}
