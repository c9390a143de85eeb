// The order of contraction.
ghost use Rattle.network.specs.Answers.{Decides};
ghost use Rattle.network.specs.Order.{Before};

use columns::at;

// The rank of a node that is never contracted. A number among the ranks, since a card and C have it in the column with them.
pub const CORE: u16 = 65535;

// Whether the node x is contracted before the node y: by rank, then by number; core nodes come last, level with each other.
pub fn contracted_before(node_ranks: &[u16], x: usize, y: usize) -> bool
    ensures { Decides result (Before node_ranks.now x y) }
{
    let rank = at(node_ranks, x);
    let other = at(node_ranks, y);
    rank < other || rank == other && rank != CORE && x < y
}
