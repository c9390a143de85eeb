// The search over rows.
ghost use Rattle.std.specs.Prelude.{length};
ghost use Rattle.network.specs.Lent.{network_of, columns_of};
ghost use Rattle.network.specs.Answers.{Ruled};
ghost use Rattle.network.specs.Rows.{table};
ghost use Rattle.search.specs.Answers.{Answered};
ghost use Rattle.search.specs.Orders.{rows_order};
ghost use Rattle.search.specs.UpDown.{UpDownJourney};

use crate::engine::run;
use crate::legs::{Told, deliver};
use crate::question::Question;
use crate::room::{check_sized, check_traveller};
use columns::rooms::clear;
use network::check::network_sized;
use network::lent::{Network, Shortcuts};
use network::refusal::{Fault, Refusal};
use network::sheet::Sheet;
use network::table::{check_rows, rows_sized};

// Whether 1, 11, 2, 3, 4, 10, 5, 6 are all kept, or the first that is not. `wides` and `narrows` tell how long the work rooms are.
fn admit(
    network: &Network,
    shortcuts: &Shortcuts,
    sheet: &Sheet,
    from: u16,
    to: u16,
    wides: usize,
    narrows: usize,
) -> Result<(), Refusal>
    ensures { Ruled (rows_order (network_of network.now) (columns_of shortcuts.now) sheet.now from to wides narrows) result }
{
    if !network_sized(network) || !rows_sized(network, shortcuts) {
        return Err(Fault::Sizes.at(0));
    }
    check_sized(network, wides, narrows)?;
    check_rows(network, shortcuts)?;
    check_traveller(network, sheet, from, to)
}

// The search over edges and shortcuts, up and then down by the order of contraction: the least weight, and the rows of a path of that weight.
// `from` and `to` are two numbers, as in `plain`.
pub fn search_rows(
    network: &Network,
    shortcuts: &Shortcuts,
    sheet: &Sheet,
    from: u16,
    to: u16,
    journey: &mut [u16],
    wide: &mut [u64],
    narrow: &mut [u32],
) -> Told
    ensures { Answered (rows_order (network_of network.now) (columns_of shortcuts.now) sheet.now from to (length wide.old) (length narrow.old)) (network_of network.now) (table (columns_of shortcuts.now)) (UpDownJourney (network_of network.now) (table (columns_of shortcuts.now)) sheet.now from to) journey.old journey.new wide.old wide.new narrow.old narrow.new result.answer result.rows }
{
    if let Err(refusal) = admit(
        network,
        shortcuts,
        sheet,
        from,
        to,
        wide.len(),
        narrow.len(),
    ) {
        return Told {
            answer: refusal.into(),
            rows: 0,
        };
    }
    let question = Question {
        plain: false,
        network: *network,
        shortcuts: *shortcuts,
        sheet: *sheet,
        from: from as usize,
        to: to as usize,
    };
    let end = run(&question, wide, narrow);
    let told = deliver(&question, end, wide, narrow, journey);
    clear(wide, narrow);
    told
}
