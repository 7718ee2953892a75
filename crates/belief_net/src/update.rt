// An update: what is kept of the list before an edit becomes what is to be kept of the list after
// it.
ghost use Rattle.std.specs.Prelude.{◌≡◌, ◌≤◌, IfOk, IfErr, OnOk};
ghost use Rattle.tmm_model.specs.Answers.{size};
ghost use Rattle.tmm_model.specs.Maps.{built};
ghost use Rattle.projection.specs.Queues.{IsTooLarge};
ghost use Rattle.belief_table.specs.LastCommit.{KeepLast};
ghost use Rattle.belief_turns.specs.Numbered.{KeepsNumbers, SparesRoots, left_under};
ghost use Rattle.belief_net.specs.Updating.{IsKept, IsPending, IsUpdated, IsCountedWithin};

use crate::opening::open;
use crate::state::BeliefNet;
use belief_turns::{Told, settle};
use dist_net::DistNet;
use premise_list::Standing;
use projection::Counter;
use std::alloc::Global;
use tmm_model::{Edit, Name, Stop};

impl BeliefNet {
    /// Makes nodes and rows of the list before an edit those of the list after it, where list and
    /// network have the edit already. `erased` are the names that it left out, and `before` is the
    /// horizon before it. It answers which derived occurrences entered and left, and counts the
    /// decisions that it makes: no more than the edit touches. What occurs on keeps the number that
    /// its node had at the last commit, and nothing else gets that number; a derived occurrence
    /// that left is told under its number, and no root is gone that stands. It refuses only a list
    /// whose map is larger than 100,000; that 2^64 - 1 decisions do not end it counts as want of
    /// memory. After an error `rollback` leads back.
    pub fn update(
        &mut self,
        alloc: Global,
        edit: &Edit,
        erased: &[Name],
        net: &DistNet,
        standing: &Standing,
        before: u32,
        counter: &mut Counter,
    ) -> Result<Told, Stop>
        requires kept { IsKept standing.now.committed net.now.committed self.old }
        requires pending { IsPending standing.now net.now edit.now erased.now }
        requires before { before ≡ standing.now.committed.horizon }
        ensures ok { IfOk result (IsUpdated standing.now net.now self.new counter.old counter.new) }
        ensures numbered { IfOk result (λ told. KeepsNumbers self.new.tree (left_under told.left.items)) }
        ensures roots { OnOk result (SparesRoots standing.now.present self.new.tree) }
        ensures stops { IfErr result (IsTooLarge (size (built standing.now.present))) }
        ensures counted { IsCountedWithin standing.now counter.old counter.new }
        ensures rises { counter.old ≤ counter.new }
        ensures last { KeepLast self.old self.new }
    {
        // it tells the proof that no count is above the greatest
        let _ = counter.value();
        match open(
            alloc,
            &mut self.beliefs,
            edit,
            erased,
            net,
            standing,
            before,
        ) {
            Ok(mut told) => {
                settle(alloc, standing, net, &mut self.beliefs, &mut told, counter)?;
                Ok(told)
            }
            Err(_) => Err(Stop::NoMemory),
        }
    }
}
