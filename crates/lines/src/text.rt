// The lines that the unit writes: an answer and its legs as text, in a room that the caller lends.
ghost use Rattle.std.specs.Prelude.{◌≡◌, ◌∷◌, ◌*◌, ◌<◌, ◌≤◌, length, take};
ghost use Rattle.network.specs.Answers.{Decides};
ghost use Rattle.lines.specs.Text.{decimal, spaced, journey_line, refusal_line, line_of, LineWritten};
ghost use Rattle.lines.specs.TextSteps.{Wrote, Room};

use itoa::Buffer;
use network::answer::Answer;

// How many decimal digits n has.
#[tactic(auto, using(crate::proofs::Digits::decimal_printed))]
fn digit_count(n: u64) -> usize
    ensures { (result ≡ length (decimal n)) × (result ≤ 20) }
{
    Buffer::new().format(n).len()
}

// How many bytes the legs take, each with the space before it.
fn legs_length(legs: &[u16]) -> usize
    requires { length legs.now < 4294967296 }
    ensures { (result ≡ length (spaced legs.now)) × (result ≤ 21 * length legs.now) }
{
    let mut total = 0;
    for leg in legs {
        total += 1 + digit_count(*leg as u64);
    }
    total
}

// How many bytes a journey's line takes.
fn journey_length(seconds: u64, count: u32, legs: &[u16]) -> usize
    requires { length legs.now < 4294967296 }
    ensures { result ≡ length (journey_line seconds count legs.now) }
{
    2 + digit_count(seconds) + digit_count(count as u64) + legs_length(legs)
}

// Whether a journey's line fits so much room. A leg takes at most six bytes, the rest of the line 32: only a room that is short of this is measured.
fn journey_fits(seconds: u64, count: u32, legs: &[u16], room: usize) -> bool
    requires { length legs.now < 4294967296 }
    ensures { Decides result (length (journey_line seconds count legs.now) ≤ room) }
{
    32 + 6 * legs.len() <= room || journey_length(seconds, count, legs) <= room
}

// Writes into a lent line. Each `put` writes from `at` on, and then the pen stands behind what it wrote. Its caller has seen to the room.
#[derive(Drop)]
struct Pen<'a> {
    line: &'a mut [u8],
    at: usize,
}

impl Pen<'_> {
    fn put(&mut self, text: &[u8])
        requires { Room text.now self.old }
        ensures { Wrote text.now self.old self.new }
    {
        let behind = self.at + text.len();
        self.line[self.at..behind].copy_from_slice(text);
        self.at = behind;
    }

    // The decimal digits of n.
    #[tactic(auto, using(crate::proofs::Digits::decimal_printed))]
    fn put_number(&mut self, n: u64)
        requires { Room (decimal n) self.old }
        ensures { Wrote (decimal n) self.old self.new }
    {
        self.put(Buffer::new().format(n).as_bytes());
    }

    // The same with the space before it.
    fn put_spaced(&mut self, n: u64)
        requires { Room (32 ∷ decimal n) self.old }
        ensures { Wrote (32 ∷ decimal n) self.old self.new }
    {
        self.put(b" ");
        self.put_number(n);
    }

    fn put_legs(&mut self, legs: &[u16])
        requires { Room (spaced legs.now) self.old }
        ensures { Wrote (spaced legs.now) self.old self.new }
    {
        for leg in legs {
            self.put_spaced(*leg as u64);
        }
    }

    #[tactic(auto, using(crate::proofs::Lines::length_journey))]
    fn put_journey(&mut self, seconds: u64, count: u32, legs: &[u16])
        requires { Room (journey_line seconds count legs.now) self.old }
        ensures { Wrote (journey_line seconds count legs.now) self.old self.new }
    {
        self.put_number(seconds);
        self.put_spaced(count as u64);
        self.put_legs(legs);
        self.put(b"\n"); // no space behind the last leg
    }

    #[tactic(auto, using(crate::proofs::Lines::length_refusal))]
    fn put_refusal(&mut self, number: u8, place: u64)
        requires { Room (refusal_line number place) self.old }
        ensures { Wrote (refusal_line number place) self.old self.new }
    {
        self.put(b"!");
        self.put_spaced(number as u64);
        self.put_spaced(place);
        self.put(b"\n");
    }
}

// A line that does not fit is not begun, so that the room stays as it was. Its length is 0 then, as `LineWritten` names it: no line
// is that short. `length legs < 2^32` keeps the sums in range, and a slice with that bound would be opened again at each loop.
fn write_journey(seconds: u64, count: u32, legs: &[u16], line: &mut [u8]) -> usize
    requires { length legs.now < 4294967296 }
    ensures { LineWritten (journey_line seconds count legs.now) line.old line.new result }
{
    if !journey_fits(seconds, count, legs, line.len()) {
        return 0;
    }
    let mut pen = Pen { line, at: 0 };
    pen.put_journey(seconds, count, legs);
    pen.at
}

fn write_refusal(number: u8, place: u64, line: &mut [u8]) -> usize
    ensures { LineWritten (refusal_line number place) line.old line.new result }
{
    if line.len() < 4 + digit_count(number as u64) + digit_count(place) {
        return 0;
    }
    let mut pen = Pen { line, at: 0 };
    pen.put_refusal(number, place);
    pen.at
}

// Writes the answer's line to the front of the room and answers its length; where it does not fit, 0, and nothing is written.
// It tells as many legs as the answer counts, or as the journey has where they are fewer.
pub fn write_line(answer: Answer, journey: &[u16], line: &mut [u8]) -> usize
    ensures { LineWritten (line_of answer (take answer.count journey.now)) line.old line.new result }
{
    if answer.number != Answer::ANSWERED {
        return write_refusal(answer.number, answer.place, line);
    }
    let told = journey.len().min(answer.count as usize);
    write_journey(answer.time, answer.count, &journey[..told], line)
}
