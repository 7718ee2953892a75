// The first cause among names and counts for which an edit is refused.
ghost use Rattle.std.specs.Prelude.{◌≡◌, ◌||◌, [], ◌∷◌, ◌++◌, map, codes};
ghost use Rattle.std.specs.List.{list_any};
ghost use Rattle.std.specs.Option.{option_or};
ghost use Rattle.tmm_model.specs.Points.{same_name};
ghost use Rattle.tmm_model.specs.Sorts.{is_reserved, sort_in, declared_by, uses_of, fact_use};
ghost use Rattle.tmm_model.specs.Verdicts.{first_taken, name_cause, place_cause, premise_cause, uses_cause, premises_cause, points_cause, add_cause, words_known};
ghost use Rattle.premise_list.specs.Words.{sort_seen, wants};
ghost use Rattle.premise_list.specs.Judged.{Judges};

use crate::premise::{Sort, facts_of, name_of, point_count};
use crate::table::Table;
use arrayvec::ArrayVec;
use tmm_model::{
    MOST_ANTECEDENTS, MOST_EXCEPTIONS, MOST_POINTS, MOST_PREMISES, Name, PointName, Premise,
    QueryPoint, Refusal,
};

/// What is wanted of a name that an edit uses.
#[derive(Clone, Copy)]
pub(crate) enum Wanted {
    Fact,
    Kind,
    // a fact or a kind
    Effect,
    // what begins at a point
    Place,
}

impl Wanted {
    fn admits(self, sort: Sort) -> bool
        ensures { result ≡ wants self (sort_seen sort) }
    {
        match self {
            Wanted::Fact => matches!(sort, Sort::Fact),
            Wanted::Kind => matches!(sort, Sort::Kind),
            Wanted::Effect => matches!(sort, Sort::Fact | Sort::Kind),
            Wanted::Place => matches!(sort, Sort::Point | Sort::Event | Sort::Token | Sort::Span),
        }
    }
}

impl Table {
    // The first cause for which the premise is refused.
    pub(crate) fn check_added(&self, premise: &Premise) -> Result<(), Refusal>
        ensures { Judges result (add_cause self.now.premises premise.now) }
    {
        self.check_declared(premise)?;
        self.check_uses(premise)?;
        self.check_limits(premise)
    }

    // The names that the premise declares are new.
    fn check_declared(&self, premise: &Premise) -> Result<(), Refusal>
        ensures { Judges result (first_taken (words_known self.now.premises) (declared_by premise.now)) }
    {
        let name = name_of(premise);
        if self.is_taken(name) {
            return Err(Refusal::Taken(plain(name)));
        }
        let facts = facts_of(premise);
        for (i, fact) in facts.iter().enumerate() {
            if self.is_taken(*fact) || *fact == name || stands_among(&facts[..i], *fact) {
                return Err(Refusal::Taken(plain(*fact)));
            }
        }
        Ok(())
    }

    // Whether the word is reserved or declared.
    fn is_taken(&self, word: Name) -> bool
        ensures { result ≡ (is_reserved word || list_any (same_name word) (words_known self.now.premises)) }
    {
        is_reserved(word) || self.sort_of(word).is_some()
    }

    // The names that the premise uses are declared, of the wanted sorts.
    #[tactic(auto, using(crate::proofs::Parts::used_facts))]
    fn check_uses(&self, premise: &Premise) -> Result<(), Refusal>
        ensures { Judges result (uses_cause self.now.premises (uses_of premise.now)) }
    {
        match premise {
            Premise::Class { .. } | Premise::Kind { .. } | Premise::Point { .. } => Ok(()),
            Premise::Event { kind, .. } => self.check_name(*kind, Wanted::Kind),
            Premise::Token { fact, .. } | Premise::Span { fact, .. } => {
                self.check_name(*fact, Wanted::Fact)
            }
            Premise::Dist { from, to, .. } => {
                self.check_place(*from)?;
                self.check_place(*to)
            }
            Premise::Rule {
                trigger,
                effect,
                given,
                unless_facts,
                ..
            } => {
                self.check_name(*trigger, Wanted::Kind)?;
                self.check_name(*effect, Wanted::Effect)?;
                self.check_conditions(given, unless_facts)
            }
            Premise::Protect { fact, from, to, .. } => {
                self.check_name(*fact, Wanted::Fact)?;
                self.check_place(*from)?;
                self.check_place(*to)
            }
            Premise::Against { one, other, .. } => {
                self.check_name(*one, Wanted::Fact)?;
                self.check_name(*other, Wanted::Fact)
            }
        }
    }

    // The antecedents and the exceptions of a rule are facts.
    fn check_conditions(
        &self,
        given: &ArrayVec<Name, MOST_ANTECEDENTS>,
        exceptions: &ArrayVec<Name, MOST_EXCEPTIONS>,
    ) -> Result<(), Refusal>
        ensures { Judges result (option_or (uses_cause self.now.premises (map fact_use given.now.items)) (uses_cause self.now.premises (map fact_use exceptions.now.items))) }
    {
        self.check_facts(given.as_slice())?;
        self.check_facts(exceptions.as_slice())
    }

    fn check_facts(&self, facts: &[Name]) -> Result<(), Refusal>
        ensures { Judges result (uses_cause self.now.premises (map fact_use facts.now)) }
    {
        for fact in facts {
            self.check_name(*fact, Wanted::Fact)?;
        }
        Ok(())
    }

    pub(crate) fn check_name(&self, name: Name, wanted: Wanted) -> Result<(), Refusal>
        ensures { Judges result (name_cause (sort_in self.now.premises name) name (wants wanted)) }
    {
        match self.sort_of(name) {
            None => {
                if is_start(name) {
                    Err(Refusal::Sort(plain(name)))
                } else {
                    Err(Refusal::Unknown(plain(name)))
                }
            }
            Some(sort) => {
                if wanted.admits(sort) {
                    Ok(())
                } else {
                    Err(Refusal::Sort(plain(name)))
                }
            }
        }
    }

    pub(crate) fn check_place(&self, point: PointName) -> Result<(), Refusal>
        ensures { Judges result (place_cause self.now.premises point) }
    {
        match point {
            PointName::Start => Ok(()),
            PointName::Begin(name) => self.check_name(name, Wanted::Place),
            PointName::End(name) => match self.sort_of(name) {
                None => Err(Refusal::Unknown(QueryPoint::Declared(point))),
                Some(Sort::Span) => Ok(()),
                Some(_) => Err(Refusal::Sort(QueryPoint::Declared(point))),
            },
        }
    }

    // The name is that of a premise. Here `start` is as unknown as any other.
    pub(crate) fn check_premise(&self, name: Name) -> Result<(), Refusal>
        ensures { Judges result (premise_cause (sort_in self.now.premises name) name) }
    {
        match self.sort_of(name) {
            None => Err(Refusal::Unknown(plain(name))),
            Some(Sort::Fact) => Err(Refusal::Sort(plain(name))),
            Some(_) => Ok(()),
        }
    }

    // One premise more may stand, and its points.
    fn check_limits(&self, premise: &Premise) -> Result<(), Refusal>
        ensures { Judges result (option_or (premises_cause self.now.premises) (points_cause (self.now.premises ++ premise.now ∷ []))) }
    {
        if self.premises().len() >= MOST_PREMISES {
            return Err(Refusal::LimitPremises);
        }
        if self.points() > MOST_POINTS - point_count(premise) {
            return Err(Refusal::LimitPoints);
        }
        Ok(())
    }
}

// The word of a plain name.
fn plain(name: Name) -> QueryPoint
    ensures { result ≡ QueryPoint.Declared (PointName.Begin name) }
{
    QueryPoint::Declared(PointName::Begin(name))
}

fn stands_among(names: &[Name], name: Name) -> bool
    ensures { result ≡ list_any (same_name name) names.now }
{
    names.iter().any(|other| name == *other)
}

fn is_start(word: Name) -> bool
    ensures { result ≡ same_name word (codes "start") }
{
    word.bytes() == b"start".as_slice()
}

// Whether no line may declare the word.
fn is_reserved(word: Name) -> bool
    ensures { result ≡ is_reserved word }
{
    is_start(word) || word.bytes() == b"if".as_slice() || word.bytes() == b"unless".as_slice()
}
