// What an edit changed, and rows of longer replies.
use crate::answer::Report;
use crate::limits::MOST_EXCEPTIONS;
use crate::name::Name;
use crate::point::{Occ, QueryPoint};
use crate::seq::Seq;
use crate::walk::WalkStep;
use arrayvec::ArrayVec;

/// A token, and the first token that clips it.
#[derive(Drop)]
pub struct Clip {
    /// The token that is clipped.
    pub token: Occ,
    /// The first token that clips it.
    pub by: Occ,
}

/// What an accepted edit changed.
#[derive(Drop)]
pub struct Changes {
    /// The retracted premises.
    pub erased: Seq<Name>,
    /// The derived occurrences that are believed no longer.
    pub left: Seq<Occ>,
    /// The derived occurrences that are newly believed.
    pub entered: Seq<Occ>,
    /// The tokens that are clipped no longer.
    pub loose: Seq<Occ>,
    /// The tokens that are newly clipped, or by another token.
    pub clips: Seq<Clip>,
    /// The protections that are newly broken.
    pub broken: Seq<Report>,
    /// The protections that are broken no longer.
    pub mended: Seq<Name>,
}

/// What an edit of a batch changed.
#[derive(Drop)]
pub struct Taken {
    /// The number of the line that held the edit.
    pub line: u64,
    /// What the edit changed.
    pub changes: Changes,
}

/// A line of the reasons of a belief.
#[derive(Drop)]
pub enum WhyLine {
    /// The premise of this name declares the occurrence.
    Premise(Name),
    /// The first point is surely at or before the second: `far` is the upper bound on the first
    /// minus the second, in whole time units, and the steps are constraints that give it.
    Order {
        first: QueryPoint,
        second: QueryPoint,
        far: i64,
        steps: Seq<WalkStep>,
    },
    /// `occ` is the effect of `rule` on the event `trigger`; `supports` are the first supporters of
    /// the rule's antecedents, in their order, and none of its exceptions `unless_facts` has one.
    Derived {
        occ: Occ,
        rule: Name,
        trigger: Occ,
        supports: Seq<Occ>,
        unless_facts: ArrayVec<Name, MOST_EXCEPTIONS>,
    },
}

/// A believed occurrence: its earliest date, its kind or fact, and what clips it.
#[derive(Drop)]
pub struct ListRow {
    /// Its earliest date, in whole time units.
    pub early: i64,
    /// The occurrence.
    pub occ: Occ,
    /// The kind of an event, or the fact of a token.
    pub what: Name,
    /// The first token that clips it, none where no token does.
    pub clip: Option<Occ>,
}
