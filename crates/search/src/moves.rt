// Where a row leads to: a label is offered to the places at its head.
ghost use Rattle.std.specs.Prelude.{◌≡◌, ◌+◌, ◌*◌, ◌<◌, ◌≤◌, length};
ghost use Rattle.network.specs.Answers.{Decides};
ghost use Rattle.network.specs.Sheet.{Bit};
ghost use Rattle.search.specs.Labels.{Offer, Offered};
ghost use Rattle.search.specs.Steps.{ToState, ToStates, Arrives};

use crate::labels::{Step, improve, label_at};
use network::sheet::Sheet;

// Whether bit i of a byte is set.
pub(crate) fn bit(byte: u8, i: usize) -> bool
    requires { i < 8 }
    ensures { Decides result (Bit byte i) }
{
    (byte >> i) % 2 == 1
}

// Offers the label of a step to the place p.
pub(crate) fn offer(wide: &mut [u64], narrow: &mut [u32], p: usize, step: Step)
    requires { p < 8192 }
    ensures { Offer p step.label step.row step.low wide.old narrow.old wide.new narrow.new }
{
    if step.label.lighter(label_at(wide, narrow, p)) {
        improve(wide, narrow, p, step);
    }
}

// Offers the label to the place of the state j at a node, if the next byte has it. `base` is the node's place of state 0 in the phase at hand.
fn offer_state(wide: &mut [u64], narrow: &mut [u32], base: usize, next: u8, j: usize, step: Step)
    requires { (j < 8) × (base + 14 < 8192) × (2 * base + 29 < length narrow.old) × (base + 14 < length wide.old) }
    ensures { Offered (ToState base next j) 8192 step.label step.row step.low wide.old narrow.old wide.new narrow.new }
{
    if bit(next, j) {
        offer(wide, narrow, base + 2 * j, step);
    }
}

// Offers the label to the places of all states of a next byte.
fn offer_states(
    wide: &mut [u64],
    narrow: &mut [u32],
    base: usize,
    next: u8,
    states: usize,
    step: Step,
)
    requires { (states ≤ 8) × (base + 14 < 8192) × (2 * base + 29 < length narrow.old) × (base + 14 < length wide.old) }
    ensures { Offered (ToStates base next states) 8192 step.label step.row step.low wide.old narrow.old wide.new narrow.new }
{
    for j in 0..states {
        offer_state(wide, narrow, base, next, j, step);
    }
}

// Offers the label to all places that a row of this mode leads to, from the state q to a node whose place of state 0 is `base`.
pub(crate) fn arrive(
    sheet: &Sheet,
    mode: usize,
    base: usize,
    q: usize,
    step: Step,
    wide: &mut [u64],
    narrow: &mut [u32],
)
    requires states_bound { (sheet.now.states ≤ 8) × (q < 8) × (mode < 8) }
    requires base_bound { (base + 14 < 8192) × (2 * base + 29 < length narrow.old) × (base + 14 < length wide.old) }
    ensures { Offered (Arrives sheet.now mode q base) 8192 step.label step.row step.low wide.old narrow.old wide.new narrow.new }
{
    let state = sheet.entries[q];
    if mode == 0 {
        offer_states(wide, narrow, base, state.next, sheet.states as usize, step);
        return;
    }
    if bit(state.modes, mode) {
        offer(wide, narrow, base + 2 * q, step);
    }
}
