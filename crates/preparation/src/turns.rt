// Whose turn it is to be contracted.
ghost use Rattle.network.specs.Answers.{Decides};
ghost use Rattle.preparation.specs.Choosing.{Sooner};
ghost use Rattle.preparation.specs.Preparing.{Due, NextTurn};

use columns::at;
use network::order::{CORE, contracted_before};

// Whether the node x is still to be contracted when `last` was contracted last; where no turn has been, whether it is contracted at all.
fn due(node_ranks: &[u16], last: Option<usize>, x: usize) -> bool
    ensures { Decides result (Due node_ranks.now last x) }
{
    at(node_ranks, x) != CORE && last.is_none_or(|last| contracted_before(node_ranks, last, x))
}

// Whether the node x is due, and its turn comes before that of `first`, where there is one.
fn sooner(node_ranks: &[u16], last: Option<usize>, first: Option<usize>, x: usize) -> bool
    ensures { Decides result (Sooner node_ranks.now last first x) }
{
    due(node_ranks, last, x) && first.is_none_or(|first| contracted_before(node_ranks, x, first))
}

// The node whose turn comes behind the turn of `last`, where one is left.
// By a call, as `find_neighbours`: in line of the turns its loop would keep what it reads in memory.
#[inline(never)]
pub(crate) fn next_turn(node_ranks: &[u16], last: Option<usize>) -> Option<usize>
    ensures { NextTurn node_ranks.now last result }
{
    let mut first = None;
    for x in 0..node_ranks.len() {
        if sooner(node_ranks, last, first, x) {
            first = Some(x);
        }
    }
    first
}
