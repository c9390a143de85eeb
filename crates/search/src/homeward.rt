// Whether the target can be reached from a node by rows that lead down: found on demand, depth first, and kept in the rooms.
ghost use Rattle.std.specs.Prelude.{◌≡◌, ◌+◌, ◌*◌, ◌/◌, ◌%◌, ◌<◌, ◌≤◌, length, set};
ghost use Rattle.network.specs.Answers.{Decides};
ghost use Rattle.network.specs.Network.{nodes};
ghost use Rattle.search.specs.Labels.{hint, word, Says, hint_of, SameLabels};
ghost use Rattle.search.specs.Questions.{roads, row_count, Hinted, Homeward, RowHome};

use crate::question::Question;
use columns::{at, put};
use network::rows::{row_at, tail_at};

// Whether it can, where that is known yet.
fn hint_at(narrow: &[u32], v: usize) -> Option<bool>
    requires { v < 512 }
    ensures { Says (hint narrow.now v) result }
{
    match at(narrow, 2 * (16 * v) + 1) / 1_073_741_824 {
        0 => Some(false),
        1 => Some(true),
        _ => None,
    }
}

fn remember(narrow: &mut [u32], v: usize, known: bool)
    requires { v < 512 }
    ensures { narrow.new ≡ set narrow.old (2 * (16 * v) + 1) (word narrow.old (16 * v) % 1073741824 + hint_of known * 1073741824) }
{
    let p = 16 * v;
    let word = at(narrow, 2 * p + 1);
    put(
        narrow,
        2 * p + 1,
        word % 1_073_741_824 + u32::from(known) * 1_073_741_824,
    );
}

// Whether the row r leads down from x to a node that is homeward.
#[cycle(homeward_row_home_some_row_home)]
fn row_home(question: &Question, x: usize, r: usize, narrow: &mut [u32]) -> bool
    requires lengths_in_bounds { (32 * nodes (roads question.now) ≤ length narrow.old) × (x < nodes (roads question.now)) × (r < row_count question.now) }
    requires hinted { Hinted question.now narrow.old }
    ensures row_home { RowHome question.now x r result }
    ensures same_labels { SameLabels (nodes (roads question.now)) narrow.old narrow.new }
    ensures hinted_2 { Hinted question.now narrow.new }
{
    if tail_at(&question.network, &question.shortcuts, r) as usize != x {
        return false;
    }
    let row = row_at(&question.network, &question.shortcuts, r);
    let head = row.head as usize;
    question.descends(head, x) && homeward(question, head, narrow)
}

// Whether some row leads down from x to a node that is homeward.
#[cycle(homeward_row_home_some_row_home)]
fn some_row_home(question: &Question, x: usize, narrow: &mut [u32]) -> bool
    requires lengths_in_bounds { (32 * nodes (roads question.now) ≤ length narrow.old) × (x < nodes (roads question.now)) × (x ≡ question.now.to → ⊥) }
    requires hinted { Hinted question.now narrow.old }
    ensures decides { Decides result (Homeward question.now x) }
    ensures same_labels { SameLabels (nodes (roads question.now)) narrow.old narrow.new }
    ensures hinted_2 { Hinted question.now narrow.new }
{
    for r in 0..question.network.tails.len() + question.shortcuts.tails.len() {
        if row_home(question, x, r, narrow) {
            return true;
        }
    }
    false
}

// Whether the target can be reached from x by rows that lead down.
#[cycle(homeward_row_home_some_row_home)]
pub(crate) fn homeward(question: &Question, x: usize, narrow: &mut [u32]) -> bool
    requires lengths_in_bounds { (32 * nodes (roads question.now) ≤ length narrow.old) × (x < nodes (roads question.now)) }
    requires hinted { Hinted question.now narrow.old }
    ensures decides { Decides result (Homeward question.now x) }
    ensures same_labels { SameLabels (nodes (roads question.now)) narrow.old narrow.new }
    ensures hinted_2 { Hinted question.now narrow.new }
{
    if x == question.to {
        return true;
    }
    if let Some(known) = hint_at(narrow, x) {
        return known;
    }
    let home = some_row_home(question, x, narrow);
    remember(narrow, x, home);
    home
}
