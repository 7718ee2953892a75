// Laws of turns: what keeps nodes and rows standing for a revision.
ghost use Rattle.belief_turns.specs.TurnLaws.{SameTurnsKeep, MovingTurnsKeep, BringingTurnsKeep, LeavingTurnsKeep};

// Where a rule fires as before, a turn is done once its row keeps what was decided.
fn same_turns_keep()
    ensures { SameTurnsKeep }
{}

// A turn in which nodes enter or go, and rows with them, keeps what nodes and rows say of a
// revision.
fn moving_turns_keep()
    ensures { MovingTurnsKeep }
{}

// Where a rule fires that did not, a turn is done once its effect has entered, and rows have
// followed.
fn bringing_turns_keep()
    ensures { BringingTurnsKeep }
{}

// Where a rule fires no more, a turn is done once its effect is gone with all below it, and rows
// have followed.
fn leaving_turns_keep()
    ensures { LeavingTurnsKeep }
{}
