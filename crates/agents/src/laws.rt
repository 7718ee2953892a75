// Laws of agents: what the step of the transcript says of whole scripts.
ghost use Rattle.agents.specs.Interleavings.{LinesTellTheWorld, OrderOfCommitsDecides};

/// A script's lines and their replies tell its world: what stands, and what each agent holds.
pub fn lines_tell_the_world()
    ensures { LinesTellTheWorld }
{}

/// Scripts with the same commits in the same order and of each agent the same lines in the same
/// order end with the same list, where no reply is `memory` and no limit on what is held is reached.
pub fn order_of_commits_decides()
    ensures { OrderOfCommitsDecides }
{}
