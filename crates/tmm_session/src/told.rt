// What a session tells of a line: its reply, and of which kind that is.
ghost use Rattle.std.specs.Prelude.{◌≡◌};

use tmm_model::{Seq, Turn};

/// The kinds of replies that a summary tells apart.
#[derive(Clone, Copy, PartialEq, Eq, Debug)]
pub enum ReplyKind {
    /// An edit was accepted.
    Accepted,
    /// A fact holds.
    Yes,
    /// A fact does not hold.
    No,
    /// The line was refused, or asks from a point that is not surely at or before the other.
    Refused,
    /// This is the size of the map.
    Size(u64),
    /// Anything else.
    Other,
}

impl ReplyKind {
    ghost use Rattle.tmm_session.specs.Kinds.{is_refusing};

    /// Whether the reply tells that the line was wrong.
    pub fn is_refusing(self) -> bool
        ensures { result ≡ is_refusing self }
    {
        matches!(self, ReplyKind::Refused)
    }
}

/// What a line is answered.
#[derive(Drop)]
pub enum Told {
    /// Nothing.
    Silent,
    /// These bytes.
    Reply { bytes: Seq<u8>, kind: ReplyKind },
    /// There was no memory.
    Memory,
}

impl Told {
    ghost use Rattle.tmm_session.specs.Kinds.{turn_of};

    /// The turn of the line, which knows of the kind only whether it is a refusal.
    pub fn turn(self) -> Turn
        ensures { result ≡ turn_of self }
    {
        match self {
            Told::Silent => Turn::Silent,
            Told::Reply { bytes, kind } => Turn::Reply {
                bytes,
                refused: kind.is_refusing(),
            },
            Told::Memory => Turn::Memory,
        }
    }
}
