// What the list of the last commit has that the present one has no more.
ghost use Rattle.std.specs.Prelude.{◌≡◌, ◌<◌, ◌≤◌, ◌+◌, ◌*◌, [], ◌∷◌, ◌++◌, length, map, vec_len, vec_capacity};
ghost use Rattle.tmm_model.specs.Verdicts.{most_premises, words_known};
ghost use Rattle.premise_list.specs.Past.{IsMoreBy, taken_premise};

use crate::premise::facts_of;
use tmm_model::Premise;

/// A premise that was taken out of a list, and the place at which it stood.
#[derive(Drop)]
pub(crate) struct Taken {
    /// Where it stood.
    pub place: usize,
    /// The premise.
    pub premise: Premise,
}

/// What leads from the present list back to the one of the last commit.
#[derive(Drop)]
pub(crate) struct Past {
    /// How many first premises of the present list are of that one too. The others were added.
    pub shared: usize,
    /// What was taken out from among those, the latest last.
    pub taken: Vec<Taken>,
}

impl Past {
    // Keeps a premise that was taken out at this place, if the list of the last commit has it.
    pub(crate) fn keep(&mut self, place: usize, premise: Premise)
        requires { vec_len self.old.taken < vec_capacity self.old.taken }
        ensures added { self.old.shared ≤ place → (self.new.shared ≡ self.old.shared) × (self.new.taken.items ≡ self.old.taken.items) }
        ensures kept { place < self.old.shared → (self.new.shared + 1 ≡ self.old.shared) × (self.new.taken.items ≡ self.old.taken.items ++ record { place = place; premise = premise } ∷ []) }
        ensures more { IsMoreBy 1 self.old.taken.items self.new.taken.items }
        ensures room { vec_capacity self.new.taken ≡ vec_capacity self.old.taken }
    {
        let _few = facts_of(&premise);
        if place < self.shared {
            self.shared -= 1;
            self.taken.push_reserved(Taken { place, premise });
        }
    }
}

// How many names the premises that were taken out declare.
pub(crate) fn words_owed(taken: &[Taken]) -> usize
    requires { length taken.now ≤ most_premises }
    ensures value { result ≡ length (words_known (map taken_premise taken.now)) }
    ensures few { result ≤ 9 * length taken.now }
{
    let mut count = 0;
    for one in taken {
        count += 1 + facts_of(&one.premise).len();
    }
    count
}
