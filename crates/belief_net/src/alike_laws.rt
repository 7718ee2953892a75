// Laws of lists that are alike in all that beliefs read.
ghost use Rattle.belief_net.specs.Alike.{AlikeAreKept};

// Nodes and rows that are kept of a list are kept of each list that is alike in all that beliefs
// read.
fn alike_are_kept()
    ensures { AlikeAreKept }
{}
