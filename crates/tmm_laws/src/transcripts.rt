// Laws of the transcript: what its step says of whole scripts.
ghost use Rattle.tmm_laws.specs.KeptRuns.{RunsKeepLists};
ghost use Rattle.tmm_laws.specs.DumpRuns.{DumpsTell, DumpsRun, StepsLeaveOne};
ghost use Rattle.tmm_laws.specs.EachAnswered.{LinesAreAnswered, ScriptsAreAnswered};
ghost use Rattle.tmm_laws.specs.OneText.{TextsAreOne};

/// What a dump shows behind its first line, run again from the empty list, is accepted line by line
/// and leaves the list, where its first premises alone do not make too large a map.
pub fn dumps_run()
    ensures tell { DumpsTell }
    ensures run { DumpsRun }
{}

/// From one list a line leaves one list, want of memory aside.
pub fn steps_leave_one()
    ensures { StepsLeaveOne }
{}

/// Two replies that a line may have from one list have the same bytes, or show a walk, of which
/// there may be several.
pub fn texts_are_one()
    ensures { TextsAreOne }
{}

/// Each list that a run leaves, from the empty one on, is kept.
pub fn runs_keep_lists()
    ensures { RunsKeepLists }
{}

/// From a kept list each line has a turn that is no want of memory, a silent line none but that
/// without a reply; so each script has a whole run without want of memory.
pub fn lines_are_answered()
    ensures lines { LinesAreAnswered }
    ensures scripts { ScriptsAreAnswered }
{}
