// The engine of the searches: places are left one after the other, the lightest first, until one is a target or none is left.
ghost use Rattle.std.specs.Prelude.{◌+◌, ◌*◌, ◌<◌, ◌≤◌, length};
ghost use Rattle.network.specs.Answers.{Decides};
ghost use Rattle.search.specs.Places.{TargetAt};
ghost use Rattle.search.specs.Questions.{Roomy, Begins, Ran};
ghost use Rattle.search.specs.Steps.{Started, Starting};

use crate::leave::leave;
use crate::moves::bit;
use crate::pick::pick;
use crate::question::Question;
use columns::put;
use columns::rooms::fill;
use network::sheet::Sheet;

// Labels the place of the state q at the node `from` with zero, if the state is initial.
fn start_state(sheet: &Sheet, q: usize, from: usize, wide: &mut [u64], narrow: &mut [u32])
    requires { (q < 8) × (from < 512) }
    ensures { Started sheet.now.entries from q wide.old narrow.old wide.new narrow.new }
{
    let state = sheet.entries[q];
    if bit(state.ends, 0) {
        put(wide, 16 * from + 2 * q, 0);
        put(narrow, 2 * (16 * from + 2 * q), 0);
    }
}

// Labels the places of the initial states.
fn start_states(sheet: &Sheet, from: usize, wide: &mut [u64], narrow: &mut [u32])
    requires { (sheet.now.states ≤ 8) × (from < 512) × (16 * from + 16 ≤ length wide.old) × (32 * from + 32 ≤ length narrow.old) }
    ensures { Starting sheet.now.entries from sheet.now.states wide.old narrow.old wide.new narrow.new }
{
    for q in 0..sheet.states as usize {
        start_state(sheet, q, from, wide, narrow);
    }
}

// The rooms as a search begins: no place has a label but the starts, and all wait.
fn begin(question: &Question, wide: &mut [u64], narrow: &mut [u32])
    requires { Roomy question.now (length wide.old) (length narrow.old) }
    ensures { Begins question.now wide.old narrow.old wide.new narrow.new }
{
    fill(wide, 0xffff_ffff_ffff_ffff);
    fill(narrow, 0xffff_ffff);
    start_states(&question.sheet, question.from, wide, narrow);
}

// Whether the place u is a target.
fn is_target(sheet: &Sheet, to: usize, u: usize) -> bool
    requires { sheet.now.states ≤ 8 }
    ensures { Decides result (TargetAt sheet.now to u) }
{
    let q = u / 2 % 8;
    u / 16 == to && q < sheet.states as usize && bit(sheet.entries[q].ends, 1)
}

// The search: the place of a target whose label is least.
// By a call also from a program of one caller: in line its loops would share the registers with all that stands around it.
#[inline(never)]
pub(crate) fn run(question: &Question, wide: &mut [u64], narrow: &mut [u32]) -> Option<usize>
    requires { Roomy question.now (length wide.old) (length narrow.old) }
    ensures { Ran question.now wide.old narrow.old wide.new narrow.new result }
{
    let places = 16 * question.network.node_modes.len();
    begin(question, wide, narrow);
    while let Some(u) = pick(wide, narrow, places) {
        if is_target(&question.sheet, question.to, u) {
            return Some(u);
        }
        leave(question, u, wide, narrow);
    }
    None
}
