// What is asked of a network and of the work rooms before a search, or before preparation; and of a traveller before a search.
ghost use Rattle.std.specs.Prelude.{◌≤◌, [], ◌∷◌};
ghost use Rattle.network.specs.Answers.{Ruled};
ghost use Rattle.network.specs.Lent.{network_of};
ghost use Rattle.network.specs.Network.{nodes};
ghost use Rattle.network.specs.Refusal.{entries_order, sheet_rules, question};
ghost use Rattle.search.specs.Orders.{work_rooms, room_order};

use network::check::{check_entries, check_question, network_sized};
use network::lent::Network;
use network::refusal::{Fault, Refusal};
use network::sheet::{Sheet, check_sheet};

// Whether 11, 2, 3, 4 are all kept, or the first that is not. `wides` and `narrows` tell how long the work rooms are.
pub(crate) fn check_sized(network: &Network, wides: usize, narrows: usize) -> Result<(), Refusal>
    requires { nodes (network_of network.now) ≤ 512 }
    ensures { Ruled (work_rooms (network_of network.now) wides narrows ∷ entries_order (network_of network.now)) result }
{
    if wides < 16 * network.node_modes.len() || narrows < 32 * network.node_modes.len() {
        return Err(Fault::WorkRoom.at(0));
    }
    check_entries(network)
}

// Whether 1, 11, 2, 3, 4 are all kept, or the first that is not.
pub fn check_room(network: &Network, wides: usize, narrows: usize) -> Result<(), Refusal>
    ensures { Ruled (room_order (network_of network.now) wides narrows) result }
{
    if !network_sized(network) {
        return Err(Fault::Sizes.at(0));
    }
    check_sized(network, wides, narrows)
}

// Whether 5, 6 are both kept, or the first that is not.
pub(crate) fn check_traveller(
    network: &Network,
    sheet: &Sheet,
    from: u16,
    to: u16,
) -> Result<(), Refusal>
    ensures { Ruled (sheet_rules sheet.now ∷ question (nodes (network_of network.now)) from to ∷ []) result }
{
    check_sheet(sheet)?;
    check_question(network.node_modes.len(), from, to)
}
