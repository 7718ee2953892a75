// Laws of timelines: what their definition is worth.
ghost use Rattle.timeline.specs.Laws.{DatesSatisfyConstraints, PlayedIsBelieved};

/// The dates of a timeline satisfy every constraint of its list.
pub fn dates_satisfy_constraints()
    ensures { DatesSatisfyConstraints }
{}

/// Where the distances of all points are fixed and each rule has one delay, what occurs in a
/// timeline is what is believed, with the same dates and in the same order.
pub fn played_is_believed()
    ensures { PlayedIsBelieved }
{}
