// What a search is asked.
ghost use Rattle.std.specs.Prelude.{◌<◌};
ghost use Rattle.std.proofs.Props.{props};
ghost use Rattle.network.specs.Lent.{network_of, columns_of};
ghost use Rattle.network.specs.Network.{nodes};
ghost use Rattle.network.specs.Sheet.{SheetSound};
ghost use Rattle.search.specs.OneProof.{before_prop};
ghost use Rattle.search.specs.Steps.{Table};

use network::lent::{Network, Shortcuts};
use network::order::contracted_before;
use network::sheet::Sheet;

// Over which network and shortcuts, for which traveller, and from which node to which. Where `plain`, every node is read as core.
// It is a flag, for it decides one test (`descends`). What the check of a question has shown goes with it.
#[derive(Clone, Copy)]
pub(crate) struct Question<'a> {
    pub plain: bool,
    pub network: Network<'a>,
    pub shortcuts: Shortcuts<'a>,
    pub sheet: Sheet,
    pub from: usize,
    pub to: usize,
    ghost accepted: { Table (network_of network) (columns_of shortcuts) } by { Prim.hlevel (props, before_prop) },
    ghost sheet_sound: { SheetSound sheet } by { Prim.hlevel props },
    ghost from_in: { from < nodes (network_of network) },
    ghost to_in: { to < nodes (network_of network) },
}

impl Question<'_> {
    ghost use Rattle.network.specs.Answers.{Decides};
    ghost use Rattle.search.specs.Questions.{down};

    // Whether a row from y to x leads down.
    pub(crate) fn descends(&self, x: usize, y: usize) -> bool
        ensures { Decides result (down self.now x y) }
    {
        !self.plain && contracted_before(self.network.node_ranks, x, y)
    }
}
