// The traveller's sheet and its check.
ghost use Rattle.std.specs.Prelude.{◌≡◌, ◌^◌, ◌≤◌, ◌<◌};
ghost use Rattle.network.specs.Answers.{Decides, Found, Ruled};
ghost use Rattle.network.specs.Refusal.{sheet_order};
ghost use Rattle.network.specs.Sheet.{StateFine};

use crate::refusal::{Fault, Refusal};

// Bytes, as a card and C give them: `check_sheet` refuses by place what is no state, so that this must be there to be refused.
#[derive(Clone, Copy, Debug, PartialEq, Eq)]
pub struct State {
    // Bit i: mode i may be ridden.
    pub modes: u8,
    // Bit j: a link may lead to state j.
    pub next: u8,
    // 1 initial, 2 final, 3 both, 0 neither.
    pub ends: u8,
}

impl State {
    // A state that rides nothing and leads nowhere.
    pub const ABSENT: State = State {
        modes: 0,
        next: 0,
        ends: 0,
    };
}

// The first `states` of the entries are the sheet's; the rest are not read: memory is fixed. Any number of states may be given: that there are eight at most stands
// with the functions behind the test of it.
#[derive(Clone, Copy, Debug)]
pub struct Sheet {
    pub entries: [State; 8],
    pub states: u8,
}

// The least number with a bit for an absent state.
fn first_absent_bit(states: u8) -> u16
    requires { states ≤ 8 }
    ensures { result ≡ 2 ^ states }
{
    1 << states
}

// Whether the state q keeps its rule.
fn state_fine(sheet: &Sheet, q: usize) -> bool
    requires { (sheet.now.states ≤ 8) × (q < sheet.now.states) }
    ensures { Decides result (StateFine sheet.now q) }
{
    let state = sheet.entries[q];
    state.modes % 2 == 0 && (state.next as u16) < first_absent_bit(sheet.states) && state.ends <= 3
}

// The lowest state that breaks its rule: one `find`, as of the other rules, over a promise of its own.
fn first_bad_state(sheet: &Sheet) -> Option<usize>
    requires { sheet.now.states ≤ 8 }
    ensures { Found (StateFine sheet.now) 0 sheet.now.states result }
{
    (0..sheet.states as usize).find(|q| !state_fine(sheet, *q))
}

// The check of a sheet: number 5.
pub fn check_sheet(sheet: &Sheet) -> Result<(), Refusal>
    ensures { Ruled (sheet_order sheet.now) result }
{
    if sheet.states == 0 || 8 < sheet.states {
        return Err(Fault::Sheet.at(0));
    }
    match first_bad_state(sheet) {
        Some(q) => Err(Fault::Sheet.at(q)),
        None => Ok(()),
    }
}
