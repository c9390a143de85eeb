// All that a caller lends to the reader of a stream.
ghost use Rattle.std.specs.Prelude.{◌≡◌};
ghost use Rattle.network.specs.Lent.{network_of, front_network};
ghost use Rattle.card.specs.Reading.{node_room, edge_room};
ghost use Rattle.card.specs.Lent.{network_in_room};

use network::lent::{Network, ShortcutRoom};

// The columns of a network, to be written. A struct of its own: no type parameter stands for `&` and `&mut`.
#[derive(Drop)]
pub struct NetworkRoom<'a> {
    pub node_modes: &'a mut [u8],
    pub node_ranks: &'a mut [u16],
    pub tails: &'a mut [u16],
    pub heads: &'a mut [u16],
    pub modes: &'a mut [u8],
    pub lengths: &'a mut [u16],
}

#[derive(Drop)]
pub struct Lent<'a> {
    pub network: NetworkRoom<'a>,
    pub shortcuts: ShortcutRoom<'a>,
    pub journey: &'a mut [u16],
    pub wide: &'a mut [u64],
    pub narrow: &'a mut [u32],
    pub line: &'a mut [u8],
}

impl NetworkRoom<'_> {
    // What is in the room, to be read.
    pub fn read(&self) -> Network<'_>
        ensures { network_of result ≡ network_in_room self.now }
    {
        Network {
            node_modes: self.node_modes,
            node_ranks: self.node_ranks,
            tails: self.tails,
            heads: self.heads,
            modes: self.modes,
            lengths: self.lengths,
        }
    }

    // The network of so many nodes and edges in front of the columns, to be read.
    pub(crate) fn front(&self, nodes: usize, edges: usize) -> Network<'_>
        ensures { network_of result ≡ front_network nodes edges (network_in_room self.now) }
    {
        self.read().front(nodes, edges)
    }

    // How many nodes there is room for.
    pub(crate) fn nodes(&self) -> usize
        ensures { result ≡ node_room (network_in_room self.now) }
    {
        self.node_modes.len().min(self.node_ranks.len())
    }

    // How many edges there is room for.
    pub(crate) fn edges(&self) -> usize
        ensures { result ≡ edge_room (network_in_room self.now) }
    {
        let ends = self.tails.len().min(self.heads.len());
        ends.min(self.modes.len().min(self.lengths.len()))
    }
}
