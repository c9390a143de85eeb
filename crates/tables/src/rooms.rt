// What preparation and the searches are lent: rows that come filled, so that those which are zeroed are seen, and their rooms.
use contraction::prepare::prepare;
use network::answer::Answer;
use network::lent::{Network, ShortcutRoom, Shortcuts};
use network::refusal::Fault;

// What every lent row is filled with.
const FILLER: u8 = 7;

// As many rows as there are places for.
const MOST: usize = 4096;

#[derive(Drop)]
pub struct Rooms {
    pub journey: [u16; 4096],
    pub wide: [u64; 8192],
    pub narrow: [u32; 16384],
}

impl Rooms {
    pub const ZEROED: Rooms = Rooms {
        journey: [0; 4096],
        wide: [0; 8192],
        narrow: [0; 16384],
    };
}

#[derive(Drop)]
pub struct Rows {
    tails: [u16; MOST],
    heads: [u16; MOST],
    modes: [u8; MOST],
    lengths: [u32; MOST],
    counts: [u16; MOST],
    firsts: [u16; MOST],
    seconds: [u16; MOST],
}

impl Rows {
    pub const FILLED: Rows = Rows {
        tails: [FILLER as u16; MOST],
        heads: [FILLER as u16; MOST],
        modes: [FILLER; MOST],
        lengths: [FILLER as u32; MOST],
        counts: [FILLER as u16; MOST],
        firsts: [FILLER as u16; MOST],
        seconds: [FILLER as u16; MOST],
    };

    pub fn read(&self) -> Shortcuts<'_> {
        Shortcuts {
            tails: &self.tails,
            heads: &self.heads,
            modes: &self.modes,
            lengths: &self.lengths,
            counts: &self.counts,
            firsts: &self.firsts,
            seconds: &self.seconds,
        }
    }

    // Prepares with the front of the rows lent: so many of them.
    pub fn prepare(&mut self, lent: usize, network: &Network, rooms: &mut Rooms) -> Answer {
        if MOST < lent {
            return Fault::Sizes.at(0).into();
        }
        let Rows {
            tails,
            heads,
            modes,
            lengths,
            counts,
            firsts,
            seconds,
        } = self;
        let mut front = ShortcutRoom {
            tails: &mut tails[..lent],
            heads: &mut heads[..lent],
            modes: &mut modes[..lent],
            lengths: &mut lengths[..lent],
            counts: &mut counts[..lent],
            firsts: &mut firsts[..lent],
            seconds: &mut seconds[..lent],
        };
        prepare(network, &mut front, &mut rooms.wide, &mut rooms.narrow)
    }
}
