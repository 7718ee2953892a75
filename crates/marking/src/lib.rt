//! Which rows have to wait after an edit, to be decided again, and which may rest.
//!
//! A row is the decision of a rule at an event, and depends on tokens: those of the classes that the
//! rule reads, and those whose facts a premise sets against one that it reads; on how far apart
//! `start`, the event and these tokens are; and on the horizon. A row has to wait, for the date of
//! its event, where any of these is another one than before. It may rest where none is, and where
//! each token that is another one bears on nothing at its event, before and now (`bearing`).
//!
//! | What an edit does | Rows that wait | Of these rest | Function |
//! |---|---|---|---|
//! | a token enters or leaves in a turn | those that read its class, and those whose rules read what its fact is set against, from its date on | those at events on which it does not bear by its class | `mark_readers` |
//! | a declared token enters | those that read its class, and those whose rules read what its fact is set against | none | `mark_token`, `mark_rivals` |
//! | tokens leave with an erased premise | the same, for each of them | those at events on which it did not bear at the last commit; none, where a premise sets facts against each other or more than 32 left | `mark_departed` |
//! | points move | those of which two points are another distance apart that the decision depends on | those at events on which no token that moved bears, before and now | `mark_moved` |
//! | facts are set against each other, or no more | those whose rules read such a fact, but where a class declares both | none | `mark_contradicted` |
//! | the horizon moves | those whose effect is due up to one horizon and after the other | none | `mark_horizon` |
//!
//! `mark_moved` asks three times: which events are another distance from `start` (`events_moved`),
//! what moved among the tokens of a class that was touched (`class_points_moved`), and the same of
//! rules that read what premises set facts against (`rival_points_moved`).
//!
//! `EditMarks` keeps what an edit has let wait so far, so that many tokens of one class or fact do
//! not each walk over its rows. No row is decided here, and none enters or leaves. The one error is
//! want of memory.
#![tactic(auto)]

mod class_points_moved;
mod contradictions_changed;
mod edit_marks;
mod events_moved;
mod horizon_moved;
mod points_moved;
mod rival_points_moved;
mod rivals_of_token;
mod token_moves;
mod tokens_departed;

pub use contradictions_changed::mark_contradicted;
pub use edit_marks::EditMarks;
pub use horizon_moved::mark_horizon;
pub use points_moved::mark_moved;
pub use rivals_of_token::mark_rivals;
pub use token_moves::{mark_readers, mark_token};
pub use tokens_departed::mark_departed;
