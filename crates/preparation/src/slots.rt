// How the slots, marks and sums stand in the work rooms. specs/Preparing says the same to the proofs. `neighbours` knows besides that the slots of both
// sides follow one another, since it clears them in one go.
// The rooms stay two slices side by side: a struct of two `&mut` would have each function say that both are still the same.
// `nodes ≤ 512` and `r < 4096` keep the sums in range. A type for either would be opened again at each sum, and is no plainer.
ghost use Rattle.std.specs.Prelude.{◌≡◌, ◌<◌, ◌≤◌, set};
ghost use Rattle.network.specs.Answers.{Decides};
ghost use Rattle.preparation.specs.Noting.{RowAt};
ghost use Rattle.preparation.specs.Preparing.{into_at, out_at, mark_at, sum_at};
ghost use Rattle.preparation.specs.Sifting.{IsMarked, SumWritten};

use columns::{at, put};
use network::weight::Weight;

// What is noted where no row leads: a room of numbers has no other way to say it.
const NO_ROW: u32 = 4096;

// The mark of a shortcut that is called for; without it there is 0.
const MARKED: u32 = 1;

// The slot of the least row from the node x to v. It and `out_slot` are two functions: a side as a parameter would only move their names into a value.
pub(crate) fn into_slot(nodes: usize, x: usize) -> usize
    requires { (nodes ≤ 512) × (x < 65536) }
    ensures { result ≡ into_at nodes x }
{
    2 * nodes + x
}

// The slot of the least row from v to the node x.
pub(crate) fn out_slot(nodes: usize, x: usize) -> usize
    requires { (nodes ≤ 512) × (x < 65536) }
    ensures { result ≡ out_at nodes x }
{
    3 * nodes + x
}

// The row that is noted at a slot.
pub(crate) fn row_noted(narrow: &[u32], slot: usize) -> Option<usize>
    ensures { RowAt narrow.now slot result }
{
    let row = at(narrow, slot);
    (row != NO_ROW).then_some(row as usize)
}

// Notes the row r at a slot.
pub(crate) fn note_row_at(narrow: &mut [u32], slot: usize, r: usize)
    requires { r < 4096 }
    ensures { narrow.new ≡ set narrow.old slot r }
{
    put(narrow, slot, r as u32);
}

// Notes at a slot that no row leads there.
pub(crate) fn clear_slot(narrow: &mut [u32], slot: usize)
    ensures { narrow.new ≡ set narrow.old slot 4096 }
{
    put(narrow, slot, NO_ROW);
}

// Whether the node w is marked.
pub(crate) fn marked(nodes: usize, narrow: &[u32], w: usize) -> bool
    requires { (nodes ≤ 512) × (w < nodes) }
    ensures { Decides result (IsMarked narrow.now nodes w) }
{
    at(narrow, 4 * nodes + w) == MARKED
}

// Drops the mark of the node w.
pub(crate) fn unmark(nodes: usize, narrow: &mut [u32], w: usize)
    requires { (nodes ≤ 512) × (w < nodes) }
    ensures { narrow.new ≡ set narrow.old (mark_at nodes w) 0 }
{
    put(narrow, 4 * nodes + w, 0);
}

// Marks the node w, and notes its sum.
pub(crate) fn write_sum(nodes: usize, wide: &mut [u64], narrow: &mut [u32], w: usize, sum: Weight)
    requires { (nodes ≤ 512) × (w < nodes) }
    ensures { SumWritten nodes w sum wide.old narrow.old wide.new narrow.new }
{
    put(wide, nodes + w, sum.time);
    put(narrow, 4 * nodes + w, MARKED);
    put(narrow, 5 * nodes + w, sum.edges);
}

// The sum that is noted for the node w.
pub(crate) fn sum_noted(nodes: usize, wide: &[u64], narrow: &[u32], w: usize) -> Weight
    requires { (nodes ≤ 512) × (w < nodes) }
    ensures { result ≡ sum_at wide.now narrow.now nodes w }
{
    Weight {
        time: at(wide, nodes + w),
        edges: at(narrow, 5 * nodes + w),
    }
}
