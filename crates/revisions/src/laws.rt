// Laws of how beliefs are kept current.
ghost use Rattle.revisions.specs.Laws.{NodesAreFinal, EndIsBelieved, MadeAreTouched, ChangedWereMade, TurnsKeep, SeedsKeep, ToldIsChanged};
ghost use Rattle.revisions.specs.Maps.{EditsAreLawful};
ghost use Rattle.revisions.specs.Standing.{StandingOccur};
ghost use Rattle.revisions.specs.Alike.{AlikeBelieve, SameReadSayAlike, UnreadEditsSayAlike, IdleEditsSayAlike};
ghost use Rattle.revisions.specs.Clips.{ClipsStay, ClipsStayOn};
ghost use Rattle.revisions.specs.Shifts.{ShiftsKeep};
ghost use Rattle.revisions.specs.Ruling.{UnruledEditsKeepRules};
ghost use Rattle.revisions.specs.StillEdits.{UnmovedAreAlike, LikeListsSee};
ghost use Rattle.revisions.specs.Whole.{RevisionsAreRight};
ghost use Rattle.revisions.specs.Marks.{MarksMake};
ghost use Rattle.revisions.specs.Counted.{EditsAreCounted, SeedsAreRight};
ghost use Rattle.revisions.specs.Walls.{OutcomesStayBut};

/// Up to the date from which all decisions wait, the nodes are those that are believed in the end.
pub fn nodes_are_final()
    ensures { NodesAreFinal }
{}

/// Where no decision waits, the nodes are those that are believed, and the rows have their
/// outcomes.
pub fn end_is_believed()
    ensures { EndIsBelieved }
{}

/// No more decisions are made than are touched.
pub fn made_are_touched()
    ensures { MadeAreTouched }
{}

/// All decisions that are new or have another outcome are made.
pub fn changed_were_made()
    ensures { ChangedWereMade }
{}

/// A turn keeps what the loop keeps.
pub fn turns_keep()
    ensures { TurnsKeep }
{}

/// The loop begins with what it keeps.
pub fn seeds_keep()
    ensures { SeedsKeep }
{}

/// What is told at the end is what newly or no longer is believed.
pub fn told_is_changed()
    ensures { ToldIsChanged }
{}

/// The revision that an edit asks for is lawful.
pub fn edits_are_lawful()
    ensures { EditsAreLawful }
{}

/// No more decisions are made than an edit touches, and all that it changes.
pub fn edits_are_counted()
    ensures { EditsAreCounted }
{}

/// With what an edit touches at the beginning the loop begins rightly.
pub fn seeds_are_right()
    ensures { SeedsAreRight }
{}

/// Where the decisions that read what moved are marked, a turn keeps what the loop keeps.
pub fn marks_make()
    ensures { MarksMake }
{}

/// A whole revision, from the seeds until no decision waits, is right.
pub fn revisions_are_right()
    ensures { RevisionsAreRight }
{}

/// A token keeps its clip where what contradicts it is the same, as far from it.
pub fn clips_stay()
    ensures { ClipsStay }
{}

/// A token keeps its clip where nothing that contradicts it entered, none of it that stays moved,
/// and what clipped it stays.
pub fn clips_stay_on()
    ensures { ClipsStayOn }
{}

/// What occurred still occurs exactly where its root and its rules stand.
pub fn standing_occur()
    ensures { StandingOccur }
{}

/// Of lists that are alike in all that beliefs read, the same is believed, and no belief changes.
pub fn alike_believe()
    ensures { AlikeBelieve }
{}

/// Lists with the same of those premises that beliefs read say the same.
pub fn same_read_say_alike()
    ensures { SameReadSayAlike }
{}

/// What an edit adds or erases that beliefs do not read, it changes nothing of what they read but
/// distances.
pub fn unread_edits_say_alike()
    ensures { UnreadEditsSayAlike }
{}

/// An edit that adds or erases a premise that says of two facts that they contradict each other,
/// which they do all the same, changes nothing of what beliefs read.
pub fn idle_edits_say_alike()
    ensures { IdleEditsSayAlike }
{}

/// An edit that adds no rule, and erases no rule, kind or class, leaves the rules on each kind as
/// they are.
pub fn unruled_edits_keep_rules()
    ensures { UnruledEditsKeepRules }
{}

/// Lists that say the same are alike where no point moved whose distances beliefs read.
pub fn unmoved_are_alike()
    ensures { UnmovedAreAlike }
{}

/// Nodes that a list sees are seen by each list that says the same.
pub fn like_lists_see()
    ensures { LikeListsSee }
{}

/// In two maps that are alike for a decision but for tokens that bear on none at its event, it has
/// one outcome.
pub fn outcomes_stay_but()
    ensures { OutcomesStayBut }
{}

/// A decision keeps its outcome where points moved, but for tokens that bear on none there, before
/// and after.
pub fn shifts_keep()
    ensures { ShiftsKeep }
{}
