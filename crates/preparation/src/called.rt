// The shortcuts from one node that v's turn calls for, as the work rooms tell of them when they have been tested.
ghost use Rattle.std.specs.Prelude.{◌<◌, ◌≤◌};

use crate::slots::{into_slot, marked, out_slot, sum_noted};
use columns::at;
use network::rows::Row;

// Of a network of so many nodes, in the turn of a node of this mode.
#[derive(Clone, Copy)]
pub(crate) struct CalledFrom<'a> {
    pub nodes: usize,
    pub mode: u8,
    pub from: usize,
    pub wide: &'a [u64],
    pub narrow: &'a [u32],
    ghost in_range: { (nodes ≤ 512) × (from < nodes) },
}

impl CalledFrom<'_> {
    ghost use Rattle.std.specs.Prelude.{◌≡◌};
    ghost use Rattle.network.specs.Answers.{Decides};
    ghost use Rattle.preparation.specs.Sifting.{IsMarked};
    ghost use Rattle.preparation.specs.Writing.{row_called};

    // Whether the shortcut to w is called for.
    pub(crate) fn calls(&self, w: usize) -> bool
        requires { w < self.now.nodes }
        ensures { Decides result (IsMarked self.now.narrow.now self.now.nodes w) }
    {
        marked(self.nodes, self.narrow, w)
    }

    // The shortcut to w. What is noted fits a row already, as the proofs of a turn know: the rests spare this function that.
    pub(crate) fn row(&self, w: usize) -> Row
        requires { w < self.now.nodes }
        ensures { result ≡ row_called self.now w }
    {
        let sum = sum_noted(self.nodes, self.wide, self.narrow, w);
        Row {
            tail: self.from as u16,
            head: w as u16,
            mode: self.mode,
            length: (sum.time % 4294967296) as u32,
            count: (sum.edges % 65536) as u16,
            first: (at(self.narrow, into_slot(self.nodes, self.from)) % 65536) as u16,
            second: (at(self.narrow, out_slot(self.nodes, w)) % 65536) as u16,
        }
    }
}
