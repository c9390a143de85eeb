// The line that a record owes.
ghost use Rattle.std.specs.Prelude.{◌≡◌, take};
ghost use Rattle.network.specs.Answers.{refused};
ghost use Rattle.lines.specs.Text.{line_of};
ghost use Rattle.card.specs.Reading.{Told, Refusing, stage_after};

use lines::text::write_line;
use network::answer::Answer;
use network::refusal::{Fault, Refusal};
use records::reader::{Reader, Stage, finish_record};

// The stage after an answer, by its number as C gets it: after 6 or 7 it goes on.
pub(crate) fn next_stage(number: u8) -> Stage
    ensures { result ≡ stage_after number }
{
    if number == Answer::ANSWERED
        || number == Fault::Question as u8
        || number == Fault::NoJourney as u8
    {
        return Stage::Asking;
    }
    Stage::Over
}

// An answer, with its legs in front of the journey room.
pub(crate) fn tell(
    reader: Reader,
    stage: Stage,
    answer: Answer,
    journey: &[u16],
    line: &mut [u8],
) -> Reader
    ensures { Told reader stage (line_of answer (take answer.count journey.now)) line.old result line.new }
{
    let written = write_line(answer, journey, line);
    finish_record(reader, stage, written)
}

// The stream is refused: nothing more is read.
pub(crate) fn refuse(reader: Reader, refusal: Refusal, line: &mut [u8]) -> Reader
    ensures { Refusing reader (refused refusal) line.old result line.new }
{
    tell(reader, Stage::Over, refusal.into(), &[], line)
}
