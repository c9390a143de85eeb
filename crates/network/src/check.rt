// The checks of a network and of a question.
ghost use Rattle.network.specs.Answers.{Decides, Ruled};
ghost use Rattle.network.specs.Lent.{network_of};
ghost use Rattle.network.specs.Network.{Sized};
ghost use Rattle.network.specs.Refusal.{entries_order, network_order, question_order};

use crate::edges::first_bad_edge;
use crate::lent::Network;
use crate::nodes::first_bad_node;
use crate::refusal::{Fault, Refusal};
use crate::transfers::first_bad_transfer;

// Whether the sizes are within the limits, and columns agree in length. In line, as `check_entries` is: where both stand together, its reads of columns
// that are known to agree need one test of their length.
#[inline(always)]
pub fn network_sized(network: &Network) -> bool
    ensures { Decides result (Sized (network_of network.now)) }
{
    let nodes = network.node_modes.len();
    let edges = network.tails.len();
    if nodes == 0 || 512 < nodes || 2048 < edges {
        return false;
    }
    network.node_ranks.len() == nodes
        && network.heads.len() == edges
        && network.modes.len() == edges
        && network.lengths.len() == edges
}

// The rules of nodes, edges and transfer nodes: numbers 2, 3, 4.
#[inline(always)]
pub fn check_entries(network: &Network) -> Result<(), Refusal>
    ensures { Ruled (entries_order (network_of network.now)) result }
{
    // A copy of its own: what it refers to is read once, and not for each node and edge.
    let network = *network;
    if let Some(node) = first_bad_node(&network) {
        return Err(Fault::NodeMode.at(node));
    }
    if let Some(edge) = first_bad_edge(&network) {
        return Err(Fault::Edge.at(edge));
    }
    if let Some(node) = first_bad_transfer(&network) {
        return Err(Fault::Transfer.at(node));
    }
    Ok(())
}

// The check of a network: numbers 1, 2, 3, 4.
pub fn check_network(network: &Network) -> Result<(), Refusal>
    ensures { Ruled (network_order (network_of network.now)) result }
{
    if !network_sized(network) {
        return Err(Fault::Sizes.at(0));
    }
    check_entries(network)
}

// The check of a question about so many nodes: number 6.
pub fn check_question(nodes: usize, from: u16, to: u16) -> Result<(), Refusal>
    ensures { Ruled (question_order nodes from to) result }
{
    if nodes <= from as usize {
        return Err(Fault::Question.at(0));
    }
    if nodes <= to as usize {
        return Err(Fault::Question.at(1));
    }
    Ok(())
}
