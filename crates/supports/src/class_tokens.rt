// The tokens that may contradict those of a fact: those of its class, and those of the classes of
// the facts that premises set against it.
ghost use Rattle.std.specs.Prelude.{◌≡◌, ◌<◌, Some, length};
ghost use Rattle.tmm_model.specs.declared.token.TokenRow.{TokenRow};
ghost use Rattle.premise_list.specs.Rivalries.{rivalries};
ghost use Rattle.clipping.specs.Across.{list_at};
ghost use Rattle.occ_tree.specs.Standing.{present};
ghost use Rattle.supports.specs.ClassTokens.{other_in, class_against, of_other, class_lists};

use clipping::Tokens;
use occ_tree::Tree;
use premise_list::Standing;
use spots::Spot;
use tmm_model::{Name, TokenRow};

/// The tokens of the class of a fact in the first list, and behind it a list for each pair of facts
/// that a premise sets against each other: where one of them is the fact, the tokens of the other's
/// class, and none where that is the fact's own.
#[derive(Clone, Copy)]
pub(crate) struct ClassTokens<'a> {
    pub standing: &'a Standing,
    pub tree: &'a Tree,
    pub fact: Name,
    pub class: Name,
    // the tokens of the class, which are looked up once
    pub own: &'a [TokenRow<Spot>],
    ghost own_is: { own.now ≡ (present tree.now).tokens class },
}

impl Tokens for ClassTokens<'_> {
    type Spot = Spot;

    ghost lists = { λ t. class_lists t.standing.now.present (present t.tree.now).tokens t.fact t.class };

    fn count(&self) -> usize {
        let _few = self.standing.len();
        self.standing.rivalries() + 1
    }

    fn list(&self, i: usize) -> &[TokenRow<Spot>] {
        self.list_at(i)
    }
}

impl ClassTokens<'_> {
    // The tokens of one list.
    fn list_at(&self, i: usize) -> &[TokenRow<Spot>]
        requires { i < length (class_lists self.now.standing.now.present (present self.now.tree.now).tokens self.now.fact self.now.class) }
        ensures { result.now ≡ list_at (class_lists self.now.standing.now.present (present self.now.tree.now).tokens self.now.fact self.now.class) i }
    {
        if i == 0 {
            self.own
        } else {
            self.list_against(self.standing.rivalry(i - 1))
        }
    }

    // The tokens of the class of the other fact of the pair, where it has the fact.
    fn list_against(&self, pair: (Name, Name)) -> &[TokenRow<Spot>]
        ensures { result.now ≡ of_other (present self.now.tree.now).tokens self.now.class (class_against self.now.standing.now.present self.now.fact pair) }
    {
        match self.class_against(pair) {
            Some(class) => self.of_other(class),
            None => &[],
        }
    }

    // The tokens of the class, where it is another one.
    fn of_other(&self, class: Name) -> &[TokenRow<Spot>]
        ensures { result.now ≡ of_other (present self.now.tree.now).tokens self.now.class (Some class) }
    {
        if class == self.class {
            &[]
        } else {
            self.tree.tokens(&class)
        }
    }

    // The class of the other fact of the pair, where it has the fact.
    fn class_against(&self, pair: (Name, Name)) -> Option<Name>
        ensures { result ≡ class_against self.now.standing.now.present self.now.fact pair }
    {
        let other = other_in(self.fact, pair)?;
        self.standing.class_of(other)
    }
}

// The other fact of a pair that has this one.
pub(crate) fn other_in(fact: Name, pair: (Name, Name)) -> Option<Name>
    ensures { result ≡ other_in fact pair }
{
    if pair.0 == fact {
        Some(pair.1)
    } else if pair.1 == fact {
        Some(pair.0)
    } else {
        None
    }
}
