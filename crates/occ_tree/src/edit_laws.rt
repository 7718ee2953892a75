// Laws of edits: what they do to the occurrences.
ghost use Rattle.occ_tree.specs.EditLaws.{GrowingEnters, ShrinkingWithdraws};

/// A new node enters among the occurrences, and all others stay.
pub fn growing_enters()
    ensures { GrowingEnters }
{}

/// A node that goes is withdrawn from the occurrences with all that its rules lead to.
pub fn shrinking_withdraws()
    ensures { ShrinkingWithdraws }
{}
