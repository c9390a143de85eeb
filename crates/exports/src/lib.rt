// The C interface of the core. A slice passes as a pointer and a length; include/journeys.h says the same to a C compiler.
// Each function makes its structs of what C hands over: a function that made them would take the same slices once more, and promise no more than the struct shows.
#![tactic(auto)]

mod bytes;

ghost use Rattle.network.specs.Answers.{Checked};
ghost use Rattle.network.specs.Network.{network};
ghost use Rattle.network.specs.Refusal.{network_order};
ghost use Rattle.network.specs.Rows.{columns};
ghost use Rattle.preparation.specs.Answers.{PreparedInto};
ghost use Rattle.legs.specs.Opened.{OpenedInto};
ghost use Rattle.exports.specs.Calls.{PlainCalled, ContractedCalled};

use bytes::read_sheet;
use contraction::contracted::search_contracted;
use contraction::opening::open_into;
use contraction::prepare::prepare;
use network::answer::Answer;
use network::check::check_network;
use network::lent::{Network, ShortcutRoom, Shortcuts};
use network::refusal::Fault;
use search::plain::search_plain;

// Modes, next and ends of eight states.
const SHEET_BYTES: usize = 24;

// The check of a network.
#[unsafe(no_mangle)]
pub extern "C" fn journeys_check(
    node_modes: &[u8],
    node_ranks: &[u16],
    tails: &[u16],
    heads: &[u16],
    modes: &[u8],
    lengths: &[u16],
) -> Answer
    ensures { Checked (network_order (network node_modes.now node_ranks.now tails.now heads.now modes.now lengths.now)) result }
{
    let network = Network {
        node_modes,
        node_ranks,
        tails,
        heads,
        modes,
        lengths,
    };
    check_network(&network).into()
}

// Writes the shortcuts of the network to the lent rows, and zeroes the rows behind them.
#[unsafe(no_mangle)]
pub extern "C" fn journeys_prepare(
    node_modes: &[u8],
    node_ranks: &[u16],
    tails: &[u16],
    heads: &[u16],
    modes: &[u8],
    lengths: &[u16],
    shortcut_tails: &mut [u16],
    shortcut_heads: &mut [u16],
    shortcut_modes: &mut [u8],
    shortcut_lengths: &mut [u32],
    shortcut_counts: &mut [u16],
    shortcut_firsts: &mut [u16],
    shortcut_seconds: &mut [u16],
    wide: &mut [u64],
    narrow: &mut [u32],
) -> Answer
    ensures { PreparedInto (network node_modes.now node_ranks.now tails.now heads.now modes.now lengths.now) (columns shortcut_tails.old shortcut_heads.old shortcut_modes.old shortcut_lengths.old shortcut_counts.old shortcut_firsts.old shortcut_seconds.old) (columns shortcut_tails.new shortcut_heads.new shortcut_modes.new shortcut_lengths.new shortcut_counts.new shortcut_firsts.new shortcut_seconds.new) wide.old wide.new narrow.old narrow.new result }
{
    let network = Network {
        node_modes,
        node_ranks,
        tails,
        heads,
        modes,
        lengths,
    };
    let mut room = ShortcutRoom {
        tails: shortcut_tails,
        heads: shortcut_heads,
        modes: shortcut_modes,
        lengths: shortcut_lengths,
        counts: shortcut_counts,
        firsts: shortcut_firsts,
        seconds: shortcut_seconds,
    };
    prepare(&network, &mut room, wide, narrow)
}

// The plain search, over the edges alone. The sheet's length is tested before all else.
#[unsafe(no_mangle)]
pub extern "C" fn journeys_plain(
    node_modes: &[u8],
    node_ranks: &[u16],
    tails: &[u16],
    heads: &[u16],
    modes: &[u8],
    lengths: &[u16],
    sheet: &[u8],
    states: u8,
    from: u16,
    to: u16,
    journey: &mut [u16],
    wide: &mut [u64],
    narrow: &mut [u32],
) -> Answer
    ensures { PlainCalled (network node_modes.now node_ranks.now tails.now heads.now modes.now lengths.now) sheet.now states from to journey.old journey.new wide.old wide.new narrow.old narrow.new result }
{
    if sheet.len() != SHEET_BYTES {
        return Fault::Sizes.at(0).into();
    }
    let network = Network {
        node_modes,
        node_ranks,
        tails,
        heads,
        modes,
        lengths,
    };
    let sheet = read_sheet(sheet, states);
    search_plain(&network, &sheet, from, to, journey, wide, narrow)
}

// The contracted search, over the edges and their shortcuts. The sheet's length is tested before all else.
#[unsafe(no_mangle)]
pub extern "C" fn journeys_contracted(
    node_modes: &[u8],
    node_ranks: &[u16],
    tails: &[u16],
    heads: &[u16],
    modes: &[u8],
    lengths: &[u16],
    shortcut_tails: &[u16],
    shortcut_heads: &[u16],
    shortcut_modes: &[u8],
    shortcut_lengths: &[u32],
    shortcut_counts: &[u16],
    shortcut_firsts: &[u16],
    shortcut_seconds: &[u16],
    sheet: &[u8],
    states: u8,
    from: u16,
    to: u16,
    journey: &mut [u16],
    wide: &mut [u64],
    narrow: &mut [u32],
) -> Answer
    ensures { ContractedCalled (network node_modes.now node_ranks.now tails.now heads.now modes.now lengths.now) (columns shortcut_tails.now shortcut_heads.now shortcut_modes.now shortcut_lengths.now shortcut_counts.now shortcut_firsts.now shortcut_seconds.now) sheet.now states from to journey.old journey.new wide.old wide.new narrow.old narrow.new result }
{
    if sheet.len() != SHEET_BYTES {
        return Fault::Sizes.at(0).into();
    }
    let network = Network {
        node_modes,
        node_ranks,
        tails,
        heads,
        modes,
        lengths,
    };
    let shortcuts = Shortcuts {
        tails: shortcut_tails,
        heads: shortcut_heads,
        modes: shortcut_modes,
        lengths: shortcut_lengths,
        counts: shortcut_counts,
        firsts: shortcut_firsts,
        seconds: shortcut_seconds,
    };
    let sheet = read_sheet(sheet, states);
    search_contracted(
        &network, &shortcuts, &sheet, from, to, journey, wide, narrow,
    )
}

// Opens the row into the front of the room, and answers how many edge numbers it wrote.
#[unsafe(no_mangle)]
pub extern "C" fn journeys_open(
    node_modes: &[u8],
    node_ranks: &[u16],
    tails: &[u16],
    heads: &[u16],
    modes: &[u8],
    lengths: &[u16],
    shortcut_tails: &[u16],
    shortcut_heads: &[u16],
    shortcut_modes: &[u8],
    shortcut_lengths: &[u32],
    shortcut_counts: &[u16],
    shortcut_firsts: &[u16],
    shortcut_seconds: &[u16],
    row: u16,
    room: &mut [u16],
) -> usize
    ensures { OpenedInto (network node_modes.now node_ranks.now tails.now heads.now modes.now lengths.now) (columns shortcut_tails.now shortcut_heads.now shortcut_modes.now shortcut_lengths.now shortcut_counts.now shortcut_firsts.now shortcut_seconds.now) row room.old result room.new }
{
    let network = Network {
        node_modes,
        node_ranks,
        tails,
        heads,
        modes,
        lengths,
    };
    let shortcuts = Shortcuts {
        tails: shortcut_tails,
        heads: shortcut_heads,
        modes: shortcut_modes,
        lengths: shortcut_lengths,
        counts: shortcut_counts,
        firsts: shortcut_firsts,
        seconds: shortcut_seconds,
    };
    open_into(&network, &shortcuts, row, room)
}
