// Laws of belief and of reasons.
ghost use Rattle.tmm_laws.specs.ExceptionLaw.{ExceptionsLackSupport};
ghost use Rattle.tmm_laws.specs.BeliefLaws.{OneRightSet, BeliefsAreRight, MapsAreRight, FiresWhereBelieved, ReasonsAreEarlier, CitedStandBefore};

/// Two right sets of occurrences have the same members.
pub fn one_right_set()
    ensures { OneRightSet }
{}

/// The believed occurrences are right.
pub fn beliefs_are_right()
    ensures { BeliefsAreRight }
{}

/// The map of a sound list believes the one right set.
pub fn maps_are_right()
    ensures { MapsAreRight }
{}

/// A decision of the map of a sound list fires exactly where its effect is believed.
pub fn decisions_fire_where_believed()
    ensures { FiresWhereBelieved }
{}

/// What a believed occurrence rests on is believed and has an earlier date, and its line stands
/// before that of what rests on it.
pub fn reasons_are_earlier()
    ensures earlier { ReasonsAreEarlier }
    ensures order { CitedStandBefore }
{}

/// No exception that the reason of a believed effect names has a supporter at its event.
pub fn exceptions_lack_support()
    ensures { ExceptionsLackSupport }
{}
