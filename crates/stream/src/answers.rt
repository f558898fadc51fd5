// What the operations answer, and how the rules of document 01 stop one.
ghost use Rattle.std.specs.Prelude.{◌≡◌};
ghost use Rattle.stream.specs.Rows.{number_of, detail_of};

// The lines of the table "Refusal numbers" that streams can give (15: document 02, R-4; 16 and 17: R-5). What a refusal carries is its detail.
#[derive(Clone, Copy, Debug, PartialEq, Eq)]
pub enum Refusal {
    // 1: a level that is not known
    UnknownLevel,
    // 2: a setting that is not allowed, or a need above the level; in a list, an x that is a not-a-number
    NotAllowed,
    // 3: more than 1,048,576 values
    TooManyValues,
    // 4: the lent output is too short; the length needed
    NoRoom(usize),
    // 5: fewer than 48 bytes
    NoHeader,
    // 6: a major that is not 1
    OtherMajor,
    // 7: a needed minor above the level; that minor
    NeedsMinor(usize),
    // 8: another rule of the header, or a need that is not the stream's
    BrokenHeader,
    // 9: a rule of the chunk table or the side table
    BrokenTable,
    // 10: a rule of a chunk; 32 times the first such chunk, and its first bad group
    BrokenChunk(usize),
    // 11: an index not below n
    NoSuchIndex,
    // 14: a stream of the other width
    OtherWidth,
    // 15: a side part that must be understood; the first such id
    MustBeUnderstood(usize),
    // 16: a stream that has side parts already
    HasSideParts,
    // 17: no summary, or a false one
    NoTrueSummary,
}

impl Refusal {
    pub fn number(self) -> usize
        ensures { result ≡ number_of self }
    {
        match self {
            Refusal::UnknownLevel => 1,
            Refusal::NotAllowed => 2,
            Refusal::TooManyValues => 3,
            Refusal::NoRoom(_) => 4,
            Refusal::NoHeader => 5,
            Refusal::OtherMajor => 6,
            Refusal::NeedsMinor(_) => 7,
            Refusal::BrokenHeader => 8,
            Refusal::BrokenTable => 9,
            Refusal::BrokenChunk(_) => 10,
            Refusal::NoSuchIndex => 11,
            Refusal::OtherWidth => 14,
            Refusal::MustBeUnderstood(_) => 15,
            Refusal::HasSideParts => 16,
            Refusal::NoTrueSummary => 17,
        }
    }

    // "A refusal added later has detail 0 unless its request states another", as most of the first ones have.
    pub fn detail(self) -> usize
        ensures { result ≡ detail_of self }
    {
        match self {
            Refusal::NoRoom(needed) => needed,
            Refusal::NeedsMinor(needed) => needed,
            Refusal::BrokenChunk(place) => place,
            Refusal::MustBeUnderstood(id) => id,
            _ => 0,
        }
    }
}

// Where a side part lies, and how many bytes it has.
#[derive(Clone, Copy)]
pub struct SidePart {
    pub place: usize,
    pub length: usize,
}

// "Success is 0 with the bytes written (pack, length), n (unpack, check)": that count, or the refusal.
pub type Answer = Result<usize, Refusal>;

// "Probe tells apart a finite number as a float, an infinity with its sign, and a not-a-number with its pattern." A negative infinity is
// Infinity(true).
#[derive(Clone, Copy)]
pub enum Shown<F, P> {
    Finite(F),
    Infinity(bool),
    NotANumber(P),
}
