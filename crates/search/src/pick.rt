// The lightest waiting place, by reading them all.
ghost use Rattle.std.specs.Prelude.{◌+◌, ◌*◌, ◌<◌, ◌≤◌, length};
ghost use Rattle.search.specs.Labels.{label, mark};
ghost use Rattle.search.specs.Steps.{Looked, Picked};

use crate::labels::{label_inside, waits};
use network::weight::Weight;

// A waiting place and its label.
#[derive(Clone, Copy)]
struct Choice {
    place: usize,
    label: Weight,
}

// The choice so far, or the place p where it waits and is lighter.
fn look(wide: &[u64], narrow: &[u32], p: usize, so_far: Option<Choice>) -> Option<Choice>
    requires { (p < length wide.now) × (2 * p + 1 < length narrow.now) }
    ensures { Looked (label wide.now narrow.now) (mark narrow.now) p so_far result }
{
    if !waits(narrow, p) {
        return so_far;
    }
    let label = label_inside(wide, narrow, p);
    if label.lighter(so_far.map_or(Weight::NONE, |choice| choice.label)) {
        return Some(Choice { place: p, label });
    }
    so_far
}

// A lightest waiting place that has a label.
pub(crate) fn pick(wide: &[u64], narrow: &[u32], places: usize) -> Option<usize>
    requires { (places ≤ length wide.now) × (2 * places ≤ length narrow.now) }
    ensures { Picked places (label wide.now narrow.now) (mark narrow.now) result }
{
    let mut so_far = None;
    for p in 0..places {
        so_far = look(wide, narrow, p, so_far);
    }
    so_far.map(|choice| choice.place)
}
