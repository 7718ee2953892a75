// Laws of suppositions: what the step of the transcript says of whole scripts.
ghost use Rattle.suppose.specs.Suppositions.{DroppedLeaveNothing, KeptAreAsAlone};

/// A supposition that is given up leaves the world as it was before it was begun.
pub fn dropped_leave_nothing()
    ensures { DroppedLeaveNothing }
{}

/// A supposition that is kept leaves a world that its lines might have left without it.
pub fn kept_are_as_alone()
    ensures { KeptAreAsAlone }
{}
