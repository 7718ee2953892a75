// Laws of marks: rows that wait since points moved, or for another horizon, are some that the edit
// touches, and all others keep their outcomes.
ghost use Rattle.belief_net.specs.MarkLaws.{PointsWereThere, MovedRowsAreTouched, RestingRowsKeep, DueRowsChange};

// But for those of the premise that the edit adds, all points were there at the last commit.
fn points_were_there()
    ensures { PointsWereThere }
{}

// Points moved on which a decision depends exactly where their distances are others than they were.
fn moved_rows_are_touched()
    ensures { MovedRowsAreTouched }
{}

// A decision that may rest though points moved keeps its outcome.
fn resting_rows_keep()
    ensures { RestingRowsKeep }
{}

// An effect is due between two horizons exactly where one of them has it in time and the other has
// not.
fn due_rows_change()
    ensures { DueRowsChange }
{}
