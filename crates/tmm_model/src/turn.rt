// What a line is answered.
use crate::seq::Seq;

/// The reply to one line.
#[derive(Drop)]
pub enum Turn {
    /// None.
    Silent,
    /// These bytes, and whether they tell a refusal.
    Reply { bytes: Seq<u8>, refused: bool },
    /// There was no memory.
    Memory,
}
