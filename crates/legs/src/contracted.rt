// The contracted search: the search over rows, its rows opened into legs.
ghost use Rattle.std.specs.Prelude.{◌≡◌, ◌++◌, get_or, take, drop};
ghost use Rattle.network.specs.Lent.{network_of, columns_of};
ghost use Rattle.network.specs.Rows.{table};
ghost use Rattle.legs.specs.Opening.{opened_all};
ghost use Rattle.legs.specs.Answers.{Contracted};
ghost use Rattle.legs.specs.InPlace.{RowsStand, RowFitsBefore, LegsBefore};

use crate::opening::open_row;
use network::answer::Answer;
use network::lent::{Network, Shortcuts};
use network::rows::row_at;
use network::sheet::Sheet;
use search::rows::search_rows;

// Opens the row at i of the journey room into the places before `end`, and answers where its legs begin.
fn open_before(
    network: &Network,
    shortcuts: &Shortcuts,
    i: usize,
    end: usize,
    journey: &mut [u16],
) -> usize
    requires { RowFitsBefore (network_of network.now) (columns_of shortcuts.now) i end journey.old }
    ensures { LegsBefore (network_of network.now) (table (columns_of shortcuts.now)) (get_or journey.old i 0) end journey.old result journey.new }
{
    let r = journey[i];
    let row = row_at(network, shortcuts, r as usize);
    let begin = end - row.count as usize;
    open_row(network, shortcuts, r, &mut journey[begin..]);
    begin
}

// Opens the rows at the front of the journey room in place: `written` rows, `count` edges in all. From the last to the first, since no row has
// fewer edges than one, so that the legs of a row never reach the rows before it. Two numbers beside the room: rows and legs share its places.
fn open_back(
    network: &Network,
    shortcuts: &Shortcuts,
    written: usize,
    count: usize,
    journey: &mut [u16],
)
    requires { RowsStand (network_of network.now) (columns_of shortcuts.now) written count journey.old }
    ensures { journey.new ≡ opened_all (network_of network.now) (table (columns_of shortcuts.now)) (take written journey.old) ++ drop count journey.old }
{
    let mut end = count;
    for i in (0..written).rev() {
        end = open_before(network, shortcuts, i, end, journey);
    }
}

// Answers the question over the network and its shortcuts, and writes the edges of the journey to the front of the journey room.
// `from` and `to` are two numbers, as in `search::plain`.
pub fn search_contracted(
    network: &Network,
    shortcuts: &Shortcuts,
    sheet: &Sheet,
    from: u16,
    to: u16,
    journey: &mut [u16],
    wide: &mut [u64],
    narrow: &mut [u32],
) -> Answer
    ensures { Contracted (network_of network.now) (columns_of shortcuts.now) sheet.now from to journey.old journey.new wide.old wide.new narrow.old narrow.new result }
{
    let told = search_rows(network, shortcuts, sheet, from, to, journey, wide, narrow);
    let answer = told.answer;
    if answer.number != Answer::ANSWERED {
        return answer;
    }
    open_back(
        network,
        shortcuts,
        told.rows,
        answer.count as usize,
        journey,
    );
    answer
}
