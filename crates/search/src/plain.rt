// The plain search: over the edges alone, every node read as core.
ghost use Rattle.std.specs.Prelude.{[], length};
ghost use Rattle.network.specs.Lent.{network_of};
ghost use Rattle.network.specs.Answers.{Ruled};
ghost use Rattle.network.specs.Journey.{Journey};
ghost use Rattle.search.specs.Answers.{Answered, legs_of};
ghost use Rattle.search.specs.Orders.{plain_order};

use crate::engine::run;
use crate::legs::deliver;
use crate::question::Question;
use crate::room::{check_room, check_traveller};
use columns::rooms::clear;
use network::answer::Answer;
use network::lent::{Network, Shortcuts};
use network::refusal::Refusal;
use network::sheet::Sheet;

// Whether 1, 11, 2, 3, 4, 5, 6 are all kept, or the first that is not. `wides` and `narrows` tell how long the work rooms are.
fn admit(
    network: &Network,
    sheet: &Sheet,
    from: u16,
    to: u16,
    wides: usize,
    narrows: usize,
) -> Result<(), Refusal>
    ensures { Ruled (plain_order (network_of network.now) sheet.now from to wides narrows) result }
{
    check_room(network, wides, narrows)?;
    check_traveller(network, sheet, from, to)
}

// The search over the edges: the least weight, and the edges of a path of that weight. As many edges are written as the answer counts, and none
// with a number above 0. `from` and `to` are two numbers, in 01's order; behind the checks they are fields of the question.
pub fn search_plain(
    network: &Network,
    sheet: &Sheet,
    from: u16,
    to: u16,
    journey: &mut [u16],
    wide: &mut [u64],
    narrow: &mut [u32],
) -> Answer
    ensures { Answered (plain_order (network_of network.now) sheet.now from to (length wide.old) (length narrow.old)) (network_of network.now) [] (Journey (network_of network.now) [] sheet.now from to) journey.old journey.new wide.old wide.new narrow.old narrow.new result (legs_of result) }
{
    if let Err(refusal) = admit(network, sheet, from, to, wide.len(), narrow.len()) {
        return refusal.into();
    }
    let question = Question {
        plain: true,
        network: *network,
        shortcuts: Shortcuts::NONE,
        sheet: *sheet,
        from: from as usize,
        to: to as usize,
    };
    let end = run(&question, wide, narrow);
    let told = deliver(&question, end, wide, narrow, journey);
    clear(wide, narrow);
    told.answer
}
