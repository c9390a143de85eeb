// The sheets of the reference network, and those of single cases.
use network::sheet::{Sheet, State};

fn state(modes: u8, next: u8, ends: u8) -> State {
    State { modes, next, ends }
}

fn single(only: State) -> Sheet {
    let mut entries = [State::ABSENT; 8];
    entries[0] = only;
    Sheet { entries, states: 1 }
}

// A: on foot, by rail in between.
pub(crate) fn by_rail() -> Sheet {
    let mut entries = [State::ABSENT; 8];
    entries[0] = state(2, 2, 3);
    entries[1] = state(4, 1, 0);
    Sheet { entries, states: 2 }
}

// F: on foot only.
pub(crate) fn on_foot() -> Sheet {
    single(state(2, 0, 3))
}

// R: by rail only.
pub(crate) fn rail_only() -> Sheet {
    single(state(4, 0, 3))
}

// A sheet that can be begun and never ended.
pub(crate) fn endless() -> Sheet {
    single(state(2, 0, 1))
}

// Sheet A with its rail state as the eighth, so that the last entry is read.
pub(crate) fn rail_last(states: u8) -> Sheet {
    let mut entries = [State::ABSENT; 8];
    entries[0] = state(2, 128, 3);
    entries[7] = state(4, 1, 0);
    Sheet { entries, states }
}
