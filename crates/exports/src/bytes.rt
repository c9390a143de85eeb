// The sheet as C hands it over: three bytes for each of eight states, state by state.
ghost use Rattle.std.specs.Prelude.{◌≡◌, ◌<◌};
ghost use Rattle.exports.specs.Calls.{state_read, sheet_read};

use columns::at;
use network::sheet::{Sheet, State};
use std::array;

// State q of the sheet.
fn read_state(bytes: &[u8], q: usize) -> State
    requires { q < 8 }
    ensures { result ≡ state_read bytes.now q }
{
    State {
        modes: at(bytes, 3 * q),
        next: at(bytes, 3 * q + 1),
        ends: at(bytes, 3 * q + 2),
    }
}

// All eight, of which so many are the sheet's.
pub(crate) fn read_sheet(bytes: &[u8], states: u8) -> Sheet
    ensures { result ≡ sheet_read bytes.now states }
{
    Sheet {
        entries: array::from_fn(|q| read_state(bytes, q)),
        states,
    }
}
