// Laws of how the loop begins.
ghost use Rattle.belief_net.specs.Beginning.{BegunAreReady};
ghost use Rattle.belief_net.specs.Clearing.{ErasedAreCleared};

// When the erased premises are gone, exactly what still occurs is left, with its rows; and what
// left is told.
fn erased_are_cleared()
    ensures { ErasedAreCleared }
{}

// So begun, nodes and rows are ready for the list after, but for marks of what moved.
fn begun_are_ready()
    ensures { BegunAreReady }
{}
