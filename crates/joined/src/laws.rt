// Laws of how nodes and rows stand for a revision.
ghost use Rattle.joined.specs.Gaps.{MovedPointsTouch};
ghost use Rattle.joined.specs.Kept.{EffectsAreThere, EffectsMayEnter, SameDecisionsKeep};
ghost use Rattle.joined.specs.Listed.{PairsAreListed, ReadersAreListed};
ghost use Rattle.joined.specs.Marking.{ClassMarksMark};
ghost use Rattle.joined.specs.Netted.{NettedAreCurrent, NettedAreCounted, NothingIsCurrent};
ghost use Rattle.joined.specs.Nodes.{WithdrawalsLeave, NodesStaySeen, ReadsByClass};
ghost use Rattle.joined.specs.Starting.{StartsAreNetted, PreparedAreNetted, HorizonsKeep};
ghost use Rattle.joined.specs.Telling.{PreparedAreTold, TurnsTell, NettedTell};
ghost use Rattle.joined.specs.Shifting.{RestingKeep};
ghost use Rattle.joined.specs.Touching.{TouchedAreMarked, RestingAreMarked, HorizonsMark};
ghost use Rattle.joined.specs.Turning.{CodeTurnsKeep};

/// A withdrawal takes out a node with all below it, and nothing else.
pub fn withdrawals_leave()
    ensures { WithdrawalsLeave }
{}

/// Nodes that still occur after an edit have the values that the new list and network give them.
pub fn nodes_stay_seen()
    ensures { NodesStaySeen }
{}

/// A decision reads a node exactly where the node's class is that of an antecedent or an exception.
pub fn reads_are_by_class()
    ensures { ReadsByClass }
{}

/// A row reads a node exactly where it is on a list of the node's class.
pub fn readers_are_listed()
    ensures { ReadersAreListed }
{}

/// A row is on the lists of its trigger and of its rule.
pub fn pairs_are_listed()
    ensures { PairsAreListed }
{}

/// Rows that are marked by the lists of classes are marked as a turn asks.
pub fn class_marks_mark()
    ensures { ClassMarksMark }
{}

/// Another horizon changes the outcome only of what it brings into time or puts beyond.
pub fn horizons_keep()
    ensures { HorizonsKeep }
{}

/// Rows are marked rightly at the beginning where those wait that the edit touches.
pub fn touched_are_marked()
    ensures { TouchedAreMarked }
{}

/// So they are too where others do not wait that keep their outcomes.
pub fn resting_are_marked()
    ensures { RestingAreMarked }
{}

/// Where the horizon alone changes, those are to wait whose effects it brings into time or puts
/// beyond.
pub fn horizons_mark()
    ensures { HorizonsMark }
{}

/// The points on which a decision depends are as far apart as they were exactly where no declared
/// points moved from which rules lead to them.
pub fn moved_points_touch()
    ensures { MovedPointsTouch }
{}

/// A decision keeps its outcome though points moved, where what moved of the tokens that it reads
/// bears on none there, before and after.
pub fn resting_keep()
    ensures { RestingKeep }
{}

/// What fires now and did not may enter: there is room for it, and no node is of it yet.
pub fn effects_may_enter()
    ensures { EffectsMayEnter }
{}

/// The effect of what fired is there.
pub fn effects_are_there()
    ensures { EffectsAreThere }
{}

/// Nodes and rows that begin rightly stand for the revision that the edit asks for.
pub fn starts_are_netted()
    ensures { StartsAreNetted }
{}

/// Nodes and rows of the list before, made ready for the list after, stand for the revision too.
pub fn prepared_are_netted()
    ensures { PreparedAreNetted }
{}

/// A turn keeps what nodes and rows say of the revision.
pub fn code_turns_keep()
    ensures { CodeTurnsKeep }
{}

/// Where a rule fires as before, the turn is done once its row keeps what was decided.
pub fn same_decisions_keep()
    ensures { SameDecisionsKeep }
{}

/// Where no row waits, nodes and rows are those of the list after the edit.
pub fn netted_are_current()
    ensures { NettedAreCurrent }
{}

/// Where nothing is declared to occur, no nodes and no rows are those of the list.
pub fn nothing_is_current()
    ensures { NothingIsCurrent }
{}

/// Nodes and rows tell how many decisions are made.
pub fn netted_are_counted()
    ensures { NettedAreCounted }
{}

/// At the beginning none entered, and those left that occur no longer.
pub fn prepared_are_told()
    ensures { PreparedAreTold }
{}

/// What entered and left is told from turn to turn.
pub fn turns_tell()
    ensures { TurnsTell }
{}

/// Where no row waits, what is told is what changed.
pub fn netted_tell()
    ensures { NettedTell }
{}
