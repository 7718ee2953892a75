// Laws of edits, of the lists that they leave and of what is dumped.
ghost use Rattle.tmm_laws.specs.EditLaws.{UntouchedKeepOutcome, ListsStayKept, DumpReloads};

/// A decision that an edit does not touch keeps its outcome.
pub fn untouched_decisions_keep_outcomes()
    ensures { UntouchedKeepOutcome }
{}

/// The empty list is kept, and so is what an accepted edit leaves of a kept list.
pub fn lists_stay_kept()
    ensures { ListsStayKept }
{}

/// The lines of a dump, read from the empty list on, are accepted and leave the dumped list, if at
/// no time the map is too large.
pub fn dump_reloads()
    ensures { DumpReloads }
{}
