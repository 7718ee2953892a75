// What comes on its date, as the play keeps it.
ghost use Rattle.std.specs.Prelude.{◌≡◌};
ghost use Rattle.timeline.specs.Rows.{clashes};

use premise_list::Standing;
use tmm_model::{Name, Occ, Rivals};

/// A token as it holds.
#[derive(Clone, Copy)]
pub(crate) struct Held {
    /// Its fact.
    pub fact: Name,
    /// The class that declares its fact.
    pub class: Name,
    /// The date at which a span ends; a persistence has none.
    pub end: Option<i64>,
}

/// An occurrence on its date.
#[derive(Drop)]
pub(crate) struct Row {
    /// Its date, in whole time units.
    pub date: i64,
    /// The occurrence.
    pub occ: Occ,
    /// The kind of an event, or the fact of a token.
    pub what: Name,
    /// What holds from its date on; nothing where it is an event.
    pub held: Option<Held>,
}

/// Whether two tokens contradict each other.
pub(crate) fn clashes(standing: &Standing, k: &Held, c: &Held) -> bool
    ensures { result ≡ clashes standing.now.present k.now c.now }
{
    k.class == c.class && k.fact != c.fact || standing.are_against(&k.fact, &c.fact)
}
