// Answers to the question whether a fact holds.
use crate::name::Name;
use crate::point::Occ;
use crate::seq::Seq;

/// Why a token of the fact is no supporter.
#[derive(Drop)]
pub enum Cause {
    /// It does not surely begin at or before the first point.
    Late,
    /// It is a persistence. This token is the first that contradicts it, and surely begins after it
    /// and at or before the last point.
    Clipped(Occ),
    /// It is a span that does not surely end after the last point.
    Ends,
}

/// A token of the fact, and why it is no supporter.
#[derive(Drop)]
pub struct Blame {
    /// The token that is blamed.
    pub token: Occ,
    /// Why it does not support the fact.
    pub cause: Cause,
}

/// Whether a fact holds from one point to another.
#[derive(Drop)]
pub enum Answer {
    /// It does, by this token.
    Yes(Occ),
    /// It does not. The first 8 tokens of the fact are blamed, and `more` is the number of the
    /// others.
    No { blames: Seq<Blame>, more: u64 },
    /// The first point is not surely at or before the last.
    Unordered,
}

/// A broken protection, and its answer.
#[derive(Drop)]
pub struct Report {
    /// The name of the protection.
    pub name: Name,
    /// What is found of its fact.
    pub answer: Answer,
}
