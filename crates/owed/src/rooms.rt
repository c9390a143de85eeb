// Every table that a stream needs, at the limits of the scope document.
ghost use Rattle.std.specs.Prelude.{◌≡◌};
ghost use Rattle.card.specs.Lent.{lent_of};
ghost use Rattle.card.specs.Running.{Enough};
ghost use Rattle.owed.specs.Rooms.{lent_by};

use card::lent::{Lent, NetworkRoom};
use network::lent::ShortcutRoom;

// 512 nodes, 2,048 edges, 4,096 rows for shortcuts, 4,096 places for a journey, and work rooms of 16 and 32 numbers per node. The longest line has
// 4,095 legs of up to four digits, each with its space, behind a time and a count: less than 32,768 bytes, and less than what the card's quick test
// of room asks for. So about 250 KB in all. Column by column, as they are lent: memory is fixed.
#[derive(Drop)]
pub struct Rooms {
    node_modes: [u8; 512],
    node_ranks: [u16; 512],
    tails: [u16; 2048],
    heads: [u16; 2048],
    modes: [u8; 2048],
    lengths: [u16; 2048],
    shortcut_tails: [u16; 4096],
    shortcut_heads: [u16; 4096],
    shortcut_modes: [u8; 4096],
    shortcut_lengths: [u32; 4096],
    shortcut_counts: [u16; 4096],
    shortcut_firsts: [u16; 4096],
    shortcut_seconds: [u16; 4096],
    journey: [u16; 4096],
    wide: [u64; 8192],
    narrow: [u32; 16384],
    line: [u8; 32768],
}

impl Rooms {
    pub const ZEROED: Rooms = Rooms {
        node_modes: [0; 512],
        node_ranks: [0; 512],
        tails: [0; 2048],
        heads: [0; 2048],
        modes: [0; 2048],
        lengths: [0; 2048],
        shortcut_tails: [0; 4096],
        shortcut_heads: [0; 4096],
        shortcut_modes: [0; 4096],
        shortcut_lengths: [0; 4096],
        shortcut_counts: [0; 4096],
        shortcut_firsts: [0; 4096],
        shortcut_seconds: [0; 4096],
        journey: [0; 4096],
        wide: [0; 8192],
        narrow: [0; 16384],
        line: [0; 32768],
    };

    // As much as the largest network takes: the rooms as they stand.
    pub fn lend(&mut self) -> Lent<'_>
        ensures enough { Enough (lent_of result) }
        ensures as_they_stand { lent_of result ≡ lent_by self.old }
    {
        let Rooms {
            node_modes,
            node_ranks,
            tails,
            heads,
            modes,
            lengths,
            shortcut_tails,
            shortcut_heads,
            shortcut_modes,
            shortcut_lengths,
            shortcut_counts,
            shortcut_firsts,
            shortcut_seconds,
            journey,
            wide,
            narrow,
            line,
        } = self;
        Lent {
            network: NetworkRoom {
                node_modes,
                node_ranks,
                tails,
                heads,
                modes,
                lengths,
            },
            shortcuts: ShortcutRoom {
                tails: shortcut_tails,
                heads: shortcut_heads,
                modes: shortcut_modes,
                lengths: shortcut_lengths,
                counts: shortcut_counts,
                firsts: shortcut_firsts,
                seconds: shortcut_seconds,
            },
            journey,
            wide,
            narrow,
            line,
        }
    }
}
