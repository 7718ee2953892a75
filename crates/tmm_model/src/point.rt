// Points in time as a script names them.
ghost use Rattle.std.specs.Prelude.{◌≡◌, IfOk};

use crate::memory::NoMemory;
use crate::name::Name;
use crate::seq::Seq;
use std::alloc::Global;

/// A declared point: date 0, or the begin or the end of what a premise declares.
#[derive(Clone, Copy, Default, PartialEq, Eq, PartialOrd, Ord, Hash, Debug)]
pub enum PointName {
    /// The point `start`, which is date 0.
    #[default]
    Start,
    /// The point of a point, event, token or span.
    Begin(Name),
    /// The point `K.end` of a span `K`.
    End(Name),
}

/// An occurrence: a declared event, token or span, and the rules that lead on from it, as in
/// `e/r/s`.
#[derive(Drop)]
pub struct Occ {
    /// The name of the declared event, token or span.
    pub root: Name,
    /// The names of the rules, the one on the root first.
    pub rules: Seq<Name>,
}

impl Occ {
    /// The same occurrence once more.
    pub fn copy(&self, alloc: Global) -> Result<Occ, NoMemory>
        ensures root { IfOk result (λ occ. occ.root ≡ self.now.root) }
        ensures rules { IfOk result (λ occ. occ.rules.items ≡ self.now.rules.items) }
    {
        let mut rules = Seq::make(alloc);
        rules.extend(self.rules.items())?;
        Ok(Occ {
            root: self.root,
            rules,
        })
    }
}

/// A point that a query names: a declared one, or the begin of a derived occurrence.
#[derive(Drop)]
pub enum QueryPoint {
    /// A declared point, or the beginning of a declared occurrence.
    Declared(PointName),
    /// The beginning of an occurrence with at least one rule.
    Derived(Occ),
}
