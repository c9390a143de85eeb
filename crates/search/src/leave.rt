// Leaving a place: all rows that leave its node are tried. `Roomy` and `Hinted` are of the rooms, which stay side by side (`labels`): they have no struct
// to stand in.
ghost use Rattle.std.specs.Prelude.{◌*◌, ◌<◌, length, ◌≡◌};
ghost use Rattle.network.specs.Network.{nodes};
ghost use Rattle.search.specs.Labels.{label};
ghost use Rattle.search.specs.Questions.{roads, row_count, Roomy, Light, Hinted, Worked, Left};

use crate::homeward::homeward;
use crate::labels::{Step, label_at, settle};
use crate::moves::arrive;
use crate::question::Question;
use network::rows::{row_at, tail_at};
use network::weight::Weight;

// Tries the row r from the place p, labelled w.
fn attempt(question: &Question, r: usize, p: usize, w: Weight, wide: &mut [u64], narrow: &mut [u32])
    requires roomy { Roomy question.now (length wide.old) (length narrow.old) }
    requires r_bound { (r < row_count question.now) × (p < 16 * nodes (roads question.now)) }
    requires light { Light question.now w }
    requires hinted { Hinted question.now narrow.old }
    ensures { Worked question.now p w (λ s v. s ≡ r) wide.old narrow.old wide.new narrow.new }
{
    if tail_at(&question.network, &question.shortcuts, r) as usize != p / 16 {
        return;
    }
    let row = row_at(&question.network, &question.shortcuts, r);
    let tail = row.tail as usize;
    let head = row.head as usize;
    let mode = row.mode as usize;
    let q = p / 2 % 8;
    let new = w.plus(row.cost());
    let step = Step {
        label: new,
        row: r,
        low: p % 16,
    };
    if question.descends(head, tail) {
        if homeward(question, head, narrow) {
            arrive(&question.sheet, mode, 16 * head + 1, q, step, wide, narrow);
        }
        return;
    }
    if p % 2 == 0 {
        arrive(&question.sheet, mode, 16 * head, q, step, wide, narrow);
    }
}

// Tries every row from the place p, labelled w.
fn try_rows(question: &Question, p: usize, w: Weight, wide: &mut [u64], narrow: &mut [u32])
    requires roomy { Roomy question.now (length wide.old) (length narrow.old) }
    requires p_bound { p < 16 * nodes (roads question.now) }
    requires light { Light question.now w }
    requires hinted { Hinted question.now narrow.old }
    ensures { Worked question.now p w (λ s v. s < row_count question.now) wide.old narrow.old wide.new narrow.new }
{
    for r in 0..question.network.tails.len() + question.shortcuts.tails.len() {
        attempt(question, r, p, w, wide, narrow);
    }
}

// Settles the place p and tries every row from it.
pub(crate) fn leave(question: &Question, p: usize, wide: &mut [u64], narrow: &mut [u32])
    requires roomy { Roomy question.now (length wide.old) (length narrow.old) }
    requires p_bound { p < 16 * nodes (roads question.now) }
    requires light { Light question.now (label wide.old narrow.old p) }
    requires hinted { Hinted question.now narrow.old }
    ensures { Left question.now p wide.old narrow.old wide.new narrow.new }
{
    let w = label_at(wide, narrow, p);
    settle(narrow, p);
    try_rows(question, p, w, wide, narrow);
}
