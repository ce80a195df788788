// Why a recording is refused.
ghost use Rattle.std.specs.Prelude.{◌≡◌};
ghost use Rattle.recording.specs.Recording.{kind_number};

use mx_base::OutOfMemory;
use std::alloc::AllocFailed;

/// What is wrong with a line. Of several the least decides.
#[derive(Clone, Copy)]
pub(crate) enum Kind {
    /// The last line has no line feed.
    NoLineFeed,
    /// The first field is none of the words.
    UnknownWord,
    /// The fields don't have the form that the word asks for.
    BadFields,
    /// The line stands before the first `at`.
    BeforeFirstAt,
    /// The moment is below the last one.
    MomentFell,
    /// A client's number is out of order, or the link isn't accepted, or it has ended.
    WrongLink,
    /// The line passes 1,000,000 lines or 268,435,456 bytes.
    TooLong,
}

/// The first faulty line of a recording, counted from 1, skipped lines too, and the least kind of its faults:
/// 1 the last line has no line feed; 2 unknown word; 3 bad fields; 4 a line before the first `at`; 5 a moment
/// below the last; 6 a client's number out of order, or a line on a client that isn't accepted, or `bytes`,
/// `end` or `fail` on a link that has ended or failed; 7 the line that passes 1,000,000 lines or 268,435,456
/// bytes.
#[derive(Clone, Copy, Debug)]
pub struct RecordFault {
    pub line: u32,
    pub kind: u8,
}

/// Why `read_recording` gives no entries.
#[derive(Clone, Copy, Debug)]
pub enum RecordRefusal {
    Fault(RecordFault),
    OutOfMemory,
}

/// Why a line gives no entry.
#[derive(Clone, Copy)]
pub(crate) enum LineRefusal {
    Kind(Kind),
    OutOfMemory,
}

impl From<OutOfMemory> for LineRefusal {
    ghost use Rattle.recording.specs.declared.fault.LineRefusal.TheVariants as line;

    ghost from_gives = { λ _ refusal. refusal ≡ line.OutOfMemory };

    fn from(_: OutOfMemory) -> Self {
        LineRefusal::OutOfMemory
    }
}

impl<T: Drop> From<AllocFailed<T>> for LineRefusal {
    ghost use Rattle.recording.specs.declared.fault.LineRefusal.TheVariants as line;

    ghost from_gives = { λ _ refusal. refusal ≡ line.OutOfMemory };

    fn from(_: AllocFailed<T>) -> Self {
        LineRefusal::OutOfMemory
    }
}

impl Kind {
    pub(crate) fn number(self) -> u8
        ensures { result ≡ kind_number self }
    {
        match self {
            Kind::NoLineFeed => 1,
            Kind::UnknownWord => 2,
            Kind::BadFields => 3,
            Kind::BeforeFirstAt => 4,
            Kind::MomentFell => 5,
            Kind::WrongLink => 6,
            Kind::TooLong => 7,
        }
    }
}
