// How labels stand in the work rooms; `homeward` has the bits of a hint besides, and `engine` the start of all. specs/Labels says the same to the proofs.
// Mark, row, state and phase of a place share one number: the rooms are lent, and no larger.
// The rooms go side by side, as they are lent: a struct of both would have every contract say that its fields are still the caller's.
// `p < 8192`, or that the place lies inside the rooms, keeps the sums in range. A type for a place would be opened again at each sum, and is no plainer.
ghost use Rattle.std.specs.Prelude.{◌≡◌, ◌+◌, ◌*◌, ◌/◌, ◌%◌, ◌<◌, length, set};
ghost use Rattle.network.specs.Answers.{Decides};
ghost use Rattle.search.specs.Labels.{label, word, mark, row_before, word_by, Written};

use columns::{at, put};
use network::weight::Weight;

// The last step to a place: the label that it gives, its row, and state and phase of the place before.
#[derive(Clone, Copy)]
pub(crate) struct Step {
    pub label: Weight,
    pub row: usize,
    pub low: usize,
    ghost row_fits: { row < 4096 },
    ghost low_fits: { low < 16 },
}

pub(crate) fn label_at(wide: &[u64], narrow: &[u32], p: usize) -> Weight
    requires { p < 8192 }
    ensures { result ≡ label wide.now narrow.now p }
{
    Weight {
        time: at(wide, p),
        edges: at(narrow, 2 * p),
    }
}

// The label of a place that lies inside the rooms, with no test of how long they are: `pick` goes through every place.
pub(crate) fn label_inside(wide: &[u64], narrow: &[u32], p: usize) -> Weight
    requires { (p < length wide.now) × (2 * p < length narrow.now) }
    ensures { result ≡ label wide.now narrow.now p }
{
    Weight {
        time: wide[p],
        edges: narrow[2 * p],
    }
}

// Whether such a place waits, likewise: it is not settled.
pub(crate) fn waits(narrow: &[u32], p: usize) -> bool
    requires { 2 * p + 1 < length narrow.now }
    ensures { Decides result (mark narrow.now p ≡ 1) }
{
    narrow[2 * p + 1] % 2 == 1
}

// The row that led to the place.
pub(crate) fn row_before(narrow: &[u32], p: usize) -> usize
    requires { p < 8192 }
    ensures { result ≡ row_before narrow.now p }
{
    (at(narrow, 2 * p + 1) / 32 % 4096) as usize
}

// State and phase of the place from which it led.
pub(crate) fn low_before(narrow: &[u32], p: usize) -> usize
    requires { p < 8192 }
    ensures { result ≡ word narrow.now p / 2 % 16 }
{
    (at(narrow, 2 * p + 1) / 2 % 16) as usize
}

// The place waits no longer.
pub(crate) fn settle(narrow: &mut [u32], p: usize)
    requires { p < 8192 }
    ensures { narrow.new ≡ set narrow.old (2 * p + 1) (word narrow.old p / 2 * 2) }
{
    let word = at(narrow, 2 * p + 1);
    put(narrow, 2 * p + 1, word / 2 * 2);
}

// Writes the numbers of the place p: a label and a word.
pub(crate) fn write(wide: &mut [u64], narrow: &mut [u32], p: usize, label: Weight, word: u32)
    requires { p < 8192 }
    ensures { Written p label word wide.old narrow.old wide.new narrow.new }
{
    put(wide, p, label.time);
    put(narrow, 2 * p, label.edges);
    put(narrow, 2 * p + 1, word);
}

// The place p is reached anew, by this step.
pub(crate) fn improve(wide: &mut [u64], narrow: &mut [u32], p: usize, step: Step)
    requires { p < 8192 }
    ensures { Written p step.label (word_by (word narrow.old p) step.row step.low) wide.old narrow.old wide.new narrow.new }
{
    let word = at(narrow, 2 * p + 1);
    let by = (2 * step.low + 32 * step.row) as u32;
    write(
        wide,
        narrow,
        p,
        step.label,
        word / 131072 * 131072 + (word % 2 + by),
    );
}
