// The sizes and the columns of a stored network.
ghost use Rattle.std.specs.Prelude.{◌*◌, ◌≤◌};

use crate::place::Place;
use columns::{Entry, put};
use network::lent::Network;

// How much of everything a stored network has.
#[derive(Clone, Copy)]
pub struct Sizes {
    pub nodes: u16,
    pub edges: u16,
    pub lent: u16,
    pub questions: u8,
}

// How many bytes they take.
pub const SIZES_BYTES: u32 = 7;

impl Sizes {
    pub fn load(at: Place) -> Sizes {
        Sizes {
            nodes: at.word(),
            edges: at.behind(2).word(),
            lent: at.behind(4).word(),
            questions: at.byte(6),
        }
    }

    // How many bytes the columns take.
    pub fn columns_bytes(self) -> u32
        ensures { result ≤ 10 * 65535 }
    {
        3 * u32::from(self.nodes) + 7 * u32::from(self.edges)
    }
}

// An entry of a column, as it is stored: the one numbered i of those from a place on.
trait Stored: Entry {
    fn load(from: Place, i: u16) -> Self;
}

impl Stored for u8 {
    fn load(from: Place, i: u16) -> u8 {
        from.byte(i)
    }
}

impl Stored for u16 {
    fn load(from: Place, i: u16) -> u16 {
        from.behind(2 * u32::from(i)).word()
    }
}

// The n entries of a column. Those that it has no place for are passed over.
fn load<T: Stored>(column: &mut [T], from: Place, n: u16) {
    for i in 0..n {
        put(column, i.into(), T::load(from, i));
    }
}

// A network's columns, side by side as they are lent, with a place for one node too many.
#[derive(Drop)]
pub struct Columns {
    node_modes: [u8; 513],
    node_ranks: [u16; 513],
    tails: [u16; 2048],
    heads: [u16; 2048],
    modes: [u8; 2048],
    lengths: [u16; 2048],
}

impl Columns {
    // From their place on, one behind the other.
    pub fn load(at: Place, nodes: u16, edges: u16) -> Columns {
        let mut columns = Columns {
            node_modes: [0; 513],
            node_ranks: [0; 513],
            tails: [0; 2048],
            heads: [0; 2048],
            modes: [0; 2048],
            lengths: [0; 2048],
        };
        load(&mut columns.node_modes, at, nodes);
        load(&mut columns.node_ranks, at.behind(nodes.into()), nodes);
        let at = at.behind(3 * u32::from(nodes));
        let each = u32::from(edges);
        load(&mut columns.tails, at, edges);
        load(&mut columns.heads, at.behind(2 * each), edges);
        load(&mut columns.modes, at.behind(4 * each), edges);
        load(&mut columns.lengths, at.behind(5 * each), edges);
        columns
    }

    pub fn read(&self) -> Network<'_> {
        Network {
            node_modes: &self.node_modes,
            node_ranks: &self.node_ranks,
            tails: &self.tails,
            heads: &self.heads,
            modes: &self.modes,
            lengths: &self.lengths,
        }
    }
}
