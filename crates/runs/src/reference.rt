// The reference network, with the rank of node 2 and the length of edge 6 as a case wants them.
ghost use Rattle.std.specs.Prelude.{◌+◌, ◌<◌, ◌^◌};

use crate::ask::{Case, both};
use crate::sheets::by_rail;
use network::lent::{Network, Shortcuts};
use network::order::CORE;
use std::io::Print;

#[derive(Drop)]
pub struct Reference {
    node_ranks: [u16; 7],
    lengths: [u16; 8],
}

impl Reference {
    pub(crate) fn new(rank: u16, length: u16) -> Reference {
        Reference {
            node_ranks: [5, 0, rank, CORE, CORE, CORE, 5],
            lengths: [4, 3, 2, 6, 2, 5, length, 30],
        }
    }

    pub(crate) fn network(&self) -> Network<'_> {
        Network {
            node_modes: &[1, 1, 1, 2, 2, 1, 1],
            node_ranks: &self.node_ranks,
            tails: &[0, 1, 2, 3, 4, 5, 0, 2],
            heads: &[1, 2, 3, 4, 5, 6, 2, 5],
            modes: &[1, 1, 0, 2, 0, 1, 1, 1],
            lengths: &self.lengths,
        }
    }
}

// The table that preparation makes: row 8 from 0 to 2, with its children, which are 0 and 1 where it is sound.
pub(crate) fn shortcut<'a>(firsts: &'a [u16], seconds: &'a [u16]) -> Shortcuts<'a> {
    Shortcuts {
        tails: &[0],
        heads: &[2],
        modes: &[1],
        lengths: &[7],
        counts: &[2],
        firsts,
        seconds,
    }
}

// P1 in rooms of so many places: a journey takes 6, and the work of seven nodes 112 and 224.
pub(crate) fn in_rooms<const JOURNEY: usize, const WIDE: usize, const NARROW: usize>(
    stdout: &impl Print,
    name: &str,
)
    requires { JOURNEY + WIDE + NARROW < 2 ^ 32 }
{
    both::<JOURNEY, WIDE, NARROW>(
        stdout,
        Case::new(name, by_rail(), 0, 6),
        &Reference::new(CORE, 9).network(),
        &shortcut(&[0], &[1]),
    );
}

// Both searches, the one over rows with the shortcut that preparation makes.
pub(crate) fn with_shortcut(stdout: &impl Print, rank: u16, length: u16, case: Case) {
    let reference = Reference::new(rank, length);
    both::<8, 112, 224>(stdout, case, &reference.network(), &shortcut(&[0], &[1]));
}

// Both searches, where edge 6 is so short that preparation makes no shortcut.
pub(crate) fn without_shortcut(stdout: &impl Print, rank: u16, length: u16, case: Case) {
    let reference = Reference::new(rank, length);
    both::<8, 112, 224>(stdout, case, &reference.network(), &Shortcuts::NONE);
}
