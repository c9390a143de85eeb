// What a caller lends, column by column: a network, its shortcuts to read, and a room for shortcuts to be written.
// Columns side by side, as C and a card have them: memory is fixed and lent. A network and its shortcuts are two values: the checks and the plain search
// are given the one alone, and preparation reads the one while it writes the other.
ghost use Rattle.std.specs.Prelude.{◌≡◌};
ghost use Rattle.network.specs.Lent.{network_of, columns_of, room_columns, front_network, front_columns};

use columns::front;

// A network: the columns of its nodes, then those of its edges.
#[derive(Clone, Copy)]
pub struct Network<'a> {
    pub node_modes: &'a [u8],
    pub node_ranks: &'a [u16],
    pub tails: &'a [u16],
    pub heads: &'a [u16],
    pub modes: &'a [u8],
    pub lengths: &'a [u16],
}

// The columns of the shortcuts.
#[derive(Clone, Copy)]
pub struct Shortcuts<'a> {
    pub tails: &'a [u16],
    pub heads: &'a [u16],
    pub modes: &'a [u8],
    pub lengths: &'a [u32],
    pub counts: &'a [u16],
    pub firsts: &'a [u16],
    pub seconds: &'a [u16],
}

// The same columns, to be written. A struct of its own: no type parameter stands for `&` and `&mut`.
#[derive(Drop)]
pub struct ShortcutRoom<'a> {
    pub tails: &'a mut [u16],
    pub heads: &'a mut [u16],
    pub modes: &'a mut [u8],
    pub lengths: &'a mut [u32],
    pub counts: &'a mut [u16],
    pub firsts: &'a mut [u16],
    pub seconds: &'a mut [u16],
}

impl<'a> Network<'a> {
    // The network of so many nodes and edges in front of the columns.
    pub fn front(&self, nodes: usize, edges: usize) -> Network<'a>
        ensures { network_of result ≡ front_network nodes edges (network_of self.now) }
    {
        Network {
            node_modes: front(self.node_modes, nodes),
            node_ranks: front(self.node_ranks, nodes),
            tails: front(self.tails, edges),
            heads: front(self.heads, edges),
            modes: front(self.modes, edges),
            lengths: front(self.lengths, edges),
        }
    }
}

impl<'a> Shortcuts<'a> {
    // No shortcut at all.
    pub const NONE: Shortcuts<'static> = Shortcuts {
        tails: &[],
        heads: &[],
        modes: &[],
        lengths: &[],
        counts: &[],
        firsts: &[],
        seconds: &[],
    };

    // The first n.
    pub fn front(&self, n: usize) -> Shortcuts<'a>
        ensures { columns_of result ≡ front_columns n (columns_of self.now) }
    {
        Shortcuts {
            tails: front(self.tails, n),
            heads: front(self.heads, n),
            modes: front(self.modes, n),
            lengths: front(self.lengths, n),
            counts: front(self.counts, n),
            firsts: front(self.firsts, n),
            seconds: front(self.seconds, n),
        }
    }
}

impl<'a> ShortcutRoom<'a> {
    // What is in the room, to be read.
    pub fn read(&self) -> Shortcuts<'_>
        ensures { columns_of result ≡ room_columns self.now }
    {
        Shortcuts {
            tails: self.tails,
            heads: self.heads,
            modes: self.modes,
            lengths: self.lengths,
            counts: self.counts,
            firsts: self.firsts,
            seconds: self.seconds,
        }
    }

    // The first n, to be read.
    pub fn front(&self, n: usize) -> Shortcuts<'_>
        ensures { columns_of result ≡ front_columns n (room_columns self.now) }
    {
        self.read().front(n)
    }
}
