// The reader of a card stream: how far it has come, and what it holds of the record at hand.
ghost use Rattle.std.specs.Prelude.{◌≡◌};
ghost use Rattle.network.specs.Answers.{Decides};
ghost use Rattle.records.specs.Reader.{Decodes, begun, holding, done, word, awaits, size, size_of, stage_numbered, number_of, Misplaced};

use network::sheet::{Sheet, State};

// The kinds of record, each by the byte that it begins with.
#[derive(Clone, Copy, Debug, PartialEq, Eq)]
pub enum Kind {
    // The end of the stream.
    End = 0,
    // How many nodes and edges there are.
    Head = 1,
    // A node's mode and rank.
    Node = 2,
    // An edge's tail, head, mode and length.
    Edge = 3,
    // A state's modes, next and ends.
    State = 4,
    // From where to where.
    Question = 5,
    // How many states a sheet has.
    Sheet = 6,
}

// A byte that begins no kind of record.
#[derive(Clone, Copy, Debug, PartialEq, Eq)]
pub struct UnknownKind(pub u8);

impl TryFrom<u8> for Kind {
    type Error = UnknownKind;

    ghost try_from_gives = { Decodes };

    fn try_from(byte: u8) -> Result<Self, UnknownKind> {
        match byte {
            0 => Ok(Kind::End),
            1 => Ok(Kind::Head),
            2 => Ok(Kind::Node),
            3 => Ok(Kind::Edge),
            4 => Ok(Kind::State),
            5 => Ok(Kind::Question),
            6 => Ok(Kind::Sheet),
            _ => Err(UnknownKind(byte)),
        }
    }
}

impl Kind {
    // How many bytes a record of this kind has.
    pub fn size(self) -> usize
        ensures { result ≡ size_of self }
    {
        match self {
            Kind::End => 1,
            Kind::Head => 5,
            Kind::Node => 4,
            Kind::Edge => 8,
            Kind::State => 4,
            Kind::Question => 5,
            Kind::Sheet => 2,
        }
    }
}

// How far a stream has come.
#[derive(Clone, Copy, Debug, PartialEq, Eq)]
pub enum Stage {
    // The head is due.
    HeadDue,
    // A node is due.
    NodesDue,
    // An edge is due.
    EdgesDue,
    // The network is prepared, and there is no sheet yet.
    SheetDue,
    // A state of the sheet is due.
    StatesDue,
    // There is a sheet: questions may come.
    Asking,
    // The end record is in: nothing may come.
    Ended,
    // The stream was refused: nothing more is read.
    Over,
    // None of these, where no stream comes, with its number: nothing may come, and its end is refused. A stage is made of every number, as docs/PROMISES has it.
    Astray(u8),
}

// A stage by its number, of which every number has one.
impl From<u8> for Stage {
    ghost from_gives = { λ number stage. stage ≡ stage_numbered number };

    fn from(number: u8) -> Stage {
        match number {
            0 => Stage::HeadDue,
            1 => Stage::NodesDue,
            2 => Stage::EdgesDue,
            3 => Stage::SheetDue,
            4 => Stage::StatesDue,
            5 => Stage::Asking,
            6 => Stage::Ended,
            7 => Stage::Over,
            _ => Stage::Astray(number),
        }
    }
}

// The number of a stage: the one that it was made of.
impl From<Stage> for u8 {
    ghost from_gives = { λ stage number. number ≡ number_of stage };

    fn from(stage: Stage) -> u8 {
        match stage {
            Stage::HeadDue => 0,
            Stage::NodesDue => 1,
            Stage::EdgesDue => 2,
            Stage::SheetDue => 3,
            Stage::StatesDue => 4,
            Stage::Asking => 5,
            Stage::Ended => 6,
            Stage::Over => 7,
            Stage::Astray(number) => number,
        }
    }
}

impl Stage {
    // Whether a record of this kind may come.
    fn awaits(self, kind: Kind) -> bool
        ensures { result ≡ awaits self kind }
    {
        match self {
            Stage::HeadDue => kind == Kind::Head,
            Stage::NodesDue => kind == Kind::Node,
            Stage::EdgesDue => kind == Kind::Edge,
            Stage::SheetDue => matches!(kind, Kind::Sheet | Kind::End),
            Stage::StatesDue => kind == Kind::State,
            Stage::Asking => matches!(kind, Kind::Sheet | Kind::Question | Kind::End),
            Stage::Ended | Stage::Over | Stage::Astray(_) => false,
        }
    }
}

#[derive(Clone, Copy)]
pub struct Reader {
    pub stage: Stage,
    // Of the first byte of the record at hand.
    pub offset: usize,
    // How many of its bytes are there, and the bytes: in fixed memory, since no record has more than eight.
    pub held: usize,
    pub bytes: [u8; 8],
    // What the head announced.
    pub nodes: usize,
    pub edges: usize,
    // How many nodes, edges or states are in, whichever are due.
    pub entered: usize,
    pub shortcuts: usize,
    pub sheet: Sheet,
    // How long the line is that stands in front of the line room, which is the caller's; 0 where none does.
    pub written: usize,
}

// No stream is longer.
const LONGEST: usize = 4611686018427387904;

// A reader before the first byte.
pub fn begin() -> Reader
    ensures { result ≡ begun }
{
    Reader {
        stage: Stage::HeadDue,
        offset: 0,
        held: 0,
        bytes: [0; 8],
        nodes: 0,
        edges: 0,
        entered: 0,
        shortcuts: 0,
        sheet: Sheet {
            entries: [State::ABSENT; 8],
            states: 0,
        },
        written: 0,
    }
}

// With a byte more of the record at hand.
pub fn hold(reader: Reader, byte: u8) -> Reader
    ensures { result ≡ holding reader byte }
{
    let at = reader.held % 8;
    let mut next = reader;
    next.bytes[at] = byte;
    next.held = at + 1;
    next.written = 0;
    next
}

// The record at hand is done with, and the next begins behind it.
pub fn finish_record(reader: Reader, stage: Stage, written: usize) -> Reader
    ensures { result ≡ done reader stage written }
{
    let mut next = reader;
    next.stage = stage;
    next.offset = reader.offset % LONGEST + reader.held % 16;
    next.held = 0;
    next.written = written;
    next
}

// A number of two bytes, big-endian: `from_be_bytes`, by the name that the promises have for it.
pub fn word_of(high: u8, low: u8) -> u16
    ensures { result ≡ word high low }
{
    u16::from_be_bytes([high, low])
}

// Whether the byte begins a record that may not come.
pub fn misplaced(reader: Reader, byte: u8) -> bool
    ensures { Decides result (Misplaced reader byte) }
{
    reader.held == 0 && !Kind::try_from(byte).is_ok_and(|kind| reader.stage.awaits(kind))
}

// How many bytes a record has that begins with this byte; 1 where none does: the promises name the number (`size`), so that it stays beside
// `Kind::size`.
pub fn record_size(byte: u8) -> usize
    ensures { result ≡ size byte }
{
    Kind::try_from(byte).map_or(1, Kind::size)
}
