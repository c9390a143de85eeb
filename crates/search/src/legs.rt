// The journey, read back from its last place to its first by the rows that led there.
ghost use Rattle.std.specs.Prelude.{◌≡◌, [], ◌++◌, ◌<◌, ◌≤◌, ◌%◌, length, drop};
ghost use Rattle.search.specs.Answers.{told};
ghost use Rattle.search.specs.Delivery.{edges_to};
ghost use Rattle.search.specs.Questions.{place_before, rows_to, Leads, Reach, Delivered};

use crate::labels::{label_at, low_before, row_before};
use crate::question::Question;
use columns::put;
use network::answer::Answer;
use network::refusal::Fault;
use network::rows::row_at;
use network::weight::Weight;

// What a search over rows answers, and how many rows it wrote to the journey room. No Option: of a refusal too it is promised how many, none.
#[derive(Clone, Copy)]
pub struct Told {
    pub answer: Answer,
    pub rows: usize,
}

// The place from which the place p was reached.
fn place_before(question: &Question, narrow: &[u32], p: usize) -> usize
    requires { p < 8192 }
    ensures { result ≡ place_before question.now narrow.now p }
{
    let row = row_at(
        &question.network,
        &question.shortcuts,
        row_before(narrow, p),
    );
    16 * row.tail as usize + low_before(narrow, p)
}

// How many rows lead to the place p. What is counted is the answer, and not an index.
fn rows_back(question: &Question, wide: &[u64], narrow: &[u32], p: usize) -> usize
    requires p_bound { edges_to narrow.now p ≤ 4294967295 }
    requires leads { Leads question.now narrow.now p [] (rows_to question.now narrow.now p) }
    ensures { result ≡ length (rows_to question.now narrow.now p) }
{
    let mut n = 0;
    let mut v = p;
    while label_at(wide, narrow, v).edges != 0 {
        v = place_before(question, narrow, v);
        n += 1;
    }
    n
}

// Writes the n rows that lead to the place p, from the last to the first, to the front of the journey room.
fn write_back(question: &Question, narrow: &[u32], p: usize, n: usize, journey: &mut [u16])
    requires n_value { (n ≡ length (rows_to question.now narrow.now p)) × (n ≤ length journey.old) }
    requires leads { Leads question.now narrow.now p [] (rows_to question.now narrow.now p) }
    ensures { journey.new ≡ rows_to question.now narrow.now p ++ drop n journey.old }
{
    let mut v = p;
    for k in (0..n).rev() {
        put(journey, k, row_before(narrow, v) as u16);
        v = place_before(question, narrow, v);
    }
}

// An answer that tells a weight.
fn tell(number: u8, w: Weight) -> Answer
    ensures { result ≡ told number w }
{
    Answer {
        number,
        place: 0,
        time: w.time,
        count: w.edges,
    }
}

// The answer of a search that ended at the place of a target, or nowhere, and its rows.
pub(crate) fn deliver(
    question: &Question,
    end: Option<usize>,
    wide: &[u64],
    narrow: &[u32],
    journey: &mut [u16],
) -> Told
    requires { Reach question.now narrow.now end }
    ensures { Delivered question.now wide.now narrow.now end journey.old journey.new result.answer result.rows }
{
    let Some(u) = end else {
        return Told {
            answer: Fault::NoJourney.at(0).into(),
            rows: 0,
        };
    };
    let w = label_at(wide, narrow, u);
    if journey.len() < w.edges as usize {
        return Told {
            answer: tell(Fault::JourneyRoom as u8, w),
            rows: 0,
        };
    }
    let n = rows_back(question, wide, narrow, u);
    write_back(question, narrow, u, n, journey);
    Told {
        answer: tell(Answer::ANSWERED, w),
        rows: n,
    }
}
