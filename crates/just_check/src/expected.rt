// What is to stand among the rows, and the nodes of what stands there.
ghost use Rattle.std.specs.Prelude.{◌≡◌, ◌≢◌, ◌↔◌, ◌++◌, ℕ, List, None, Some, IsTrue, OnOk};
ghost use Rattle.tmm_model.specs.Moments.{Moment, At, along};
ghost use Rattle.tmm_model.specs.declared.point.PointName.TheVariants.{Begin};
ghost use Rattle.spots.specs.Forest.{Forest};
ghost use Rattle.just_check.specs.declared.expected.Origin.{Origin as AnOrigin};
ghost use Rattle.just_check.specs.Origins.{entry_at, node_under, Knows, IsFoundAmong, Awaits, SetsNode};

use indexmap::IndexMap;
use std::alloc::Global;
use tmm_model::{Name, NoMemory};

/// What an occurrence comes from: the event that brings it about, none for what is declared, and
/// the name of the rule, or its own.
#[derive(Clone, Copy, PartialEq, Eq, Hash)]
pub(crate) struct Origin {
    /// The node of the event.
    pub event: Option<u32>,
    /// The name of the rule or of the premise.
    pub name: Name,
}

/// What is to stand among the rows, each under its origin with its node, none where it does not
/// stand yet.
#[derive(Drop)]
pub(crate) struct Expected {
    nodes: IndexMap<Origin, Option<u32>>,
}

impl Expected {
    /// Nothing. It takes no memory.
    pub fn make(alloc: Global) -> Expected
        ensures { (o : AnOrigin) → entry_at result o ≡ None }
    {
        Expected {
            nodes: IndexMap::new(alloc),
        }
    }

    /// Has what comes from this origin stand among the rows. Where that is known nothing changes.
    pub fn add(&mut self, origin: Origin) -> Result<(), NoMemory>
        ensures { OnOk result (Awaits self.old self.new origin) }
    {
        if self.nodes.contains_key(&origin) {
            return Ok(());
        }
        match self.nodes.insert(origin, None) {
            Ok(_) => Ok(()),
            Err(_) => Err(NoMemory),
        }
    }

    /// Whether what comes from this origin is to stand among the rows and does not stand yet.
    pub fn awaits(&self, origin: &Origin) -> bool
        ensures { IsTrue result ↔ (entry_at self.now origin.now ≡ Some None) }
    {
        match self.nodes.get(origin) {
            Some(node) => node.is_none(),
            None => false,
        }
    }

    /// Tells the node of what comes from this origin.
    pub fn set(&mut self, origin: &Origin, x: u32)
        requires { entry_at self.old origin.now ≡ Some None }
        ensures { SetsNode self.old self.new origin.now x }
    {
        if let Some(node) = self.nodes.get_mut(origin) {
            *node = Some(x);
        }
    }

    /// The node of what comes from this origin, none where it does not stand.
    pub fn node(&self, origin: &Origin) -> Option<u32>
        ensures { result ≡ node_under self.now origin.now }
    {
        *self.nodes.get(origin)?
    }

    /// The node of the occurrence to which these rules lead, none where it does not stand.
    pub fn find(&self, root: Name, rules: &[Name]) -> Option<u32>
        ensures { (f : Forest) (b : List Moment) → Knows f b self.now → IsFoundAmong f b (along (At (Begin root)) rules.now) result }
    {
        let mut x = self.node(&Origin {
            event: None,
            name: root,
        })?;
        for rule in rules {
            x = self.node(&Origin {
                event: Some(x),
                name: *rule,
            })?;
        }
        Some(x)
    }

    /// Whether all stands that is to stand.
    pub fn all_stand(&self) -> bool
        ensures { IsTrue result ↔ ((o : AnOrigin) → entry_at self.now o ≢ Some None) }
    {
        for place in 0..self.nodes.len() {
            if let Some((_, node)) = self.nodes.get_index(place) {
                if node.is_none() {
                    return false;
                }
            }
        }
        true
    }
}
