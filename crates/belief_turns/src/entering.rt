// Effects that enter.
ghost use Rattle.std.specs.Prelude.{◌≡◌, Some, None, IfOk, OnOk};
ghost use Rattle.dist_net.specs.Net.{Net};
ghost use Rattle.spots.specs.Forest.{IsLive};
ghost use Rattle.spots.specs.OfLists.{IsForestOf};
ghost use Rattle.occ_tree.specs.OfLists.{IsTreeOf};
ghost use Rattle.occ_tree.specs.Places.{forest};
ghost use Rattle.occ_tree.specs.Standing.{present, committed, forest as forest_of};
ghost use Rattle.projection.specs.Kinds.{AreKnown};
ghost use Rattle.spots.specs.Growing.{effect_shape, MayEnter};
ghost use Rattle.spots.specs.Rules.{IsRuleOf};
ghost use Rattle.undo_rows.specs.Changes.{present as table};
ghost use Rattle.marking.specs.Covered.{Covers};
ghost use Rattle.belief_table.specs.Decided.{AreUnder};
ghost use Rattle.belief_turns.specs.Entering.{Brings, EntersIn};
ghost use Rattle.belief_table.specs.LastCommit.{KeepLast};
ghost use Rattle.belief_table.specs.Marks.{HaveEvents};

use crate::rows::add_rows_after;
use belief_table::Beliefs;
use dist_net::DistNet;
use marking::{EditMarks, mark_readers};
use occ_tree::Tree;
use premise_list::Standing;
use projection::KnownKinds;
use std::alloc::Global;
use tmm_model::{Name, NoMemory, Premise, Shape};

// Adds the effect of a rule that fires at the event of a node, and answers its number, which no
// node had at the last commit either. If that is an event, its rules get rows, which wait; if it is
// a token, those rows wait on which it may bear. What is known of kinds is kept.
pub(crate) fn bring_about(
    alloc: Global,
    standing: &Standing,
    net: &DistNet,
    beliefs: &mut Beliefs,
    marks: &mut EditMarks,
    trigger: u32,
    rule: Name,
    known: &mut KnownKinds,
) -> Result<u32, NoMemory>
    requires tree { IsTreeOf standing.now.present net.now.present beliefs.old.tree }
    requires trigger { IsLive (forest beliefs.old.tree) trigger }
    requires enters { MayEnter standing.now.present (forest beliefs.old.tree) trigger rule }
    requires events { HaveEvents beliefs.old.tree (table beliefs.old.decisions.rows) }
    requires under { AreUnder standing.now.present beliefs.old.decisions }
    requires covered { Covers standing.now.present (present beliefs.old.tree) beliefs.old.decisions marks.old }
    requires known { AreKnown standing.now.present known.old }
    ensures ok { OnOk result (Brings standing.now.present net.now.present trigger rule beliefs.old beliefs.new) }
    ensures number { IfOk result (λ x. (b : Brings standing.now.present net.now.present trigger rule beliefs.old beliefs.new) × (b.number ≡ x)) }
    ensures was_free { IfOk result (λ x. forest_of (committed beliefs.old.tree) x ≡ None) }
    ensures covered { OnOk result (Covers standing.now.present (present beliefs.new.tree) beliefs.new.decisions marks.new) }
    ensures last { KeepLast beliefs.old beliefs.new }
    ensures known { AreKnown standing.now.present known.new }
{
    // it tells the proof that rows are on their lists
    let _ = beliefs.decisions.rows.first(0, trigger);
    let effect = enter_effect(alloc, standing, &mut beliefs.tree, trigger, rule)?;
    let row = beliefs.tree.row(effect);
    match row.class {
        Some(class) => {
            mark_readers(
                alloc,
                standing,
                &beliefs.tree,
                net,
                &mut beliefs.decisions,
                marks,
                class,
                effect,
                &[effect],
            )?;
            Ok(effect)
        }
        None => {
            let early = beliefs.tree.early(effect);
            add_rows_after(
                alloc,
                standing,
                &mut beliefs.decisions,
                effect,
                early,
                row.what,
                known,
            )?;
            Ok(effect)
        }
    }
}

// Adds what a rule leads to from the event of a node, and answers its number, which no node had at
// the last commit either.
fn enter_effect(
    alloc: Global,
    standing: &Standing,
    tree: &mut Tree,
    trigger: u32,
    rule: Name,
) -> Result<u32, NoMemory>
    requires seen { (net : Net) × IsForestOf standing.now.present net (forest tree.old) }
    requires trigger { IsLive (forest tree.old) trigger }
    requires rule { IsRuleOf standing.now.present rule }
    requires enters { MayEnter standing.now.present (forest tree.old) trigger rule }
    ensures ok { IfOk result (λ x. (net : Net) → IsTreeOf standing.now.present net tree.old → EntersIn standing.now.present net trigger rule tree.old tree.new x) }
    ensures was_free { IfOk result (λ x. forest_of (committed tree.old) x ≡ None) }
    ensures committed { committed tree.new ≡ committed tree.old }
{
    let Some(Premise::Rule { lo, hi, effect, .. }) = standing.get(rule) else {
        unreachable!()
    };
    let class = standing.class_of(*effect);
    let shape = effect_shape(&class);
    tree.insert_child(alloc, trigger, rule, *lo, *hi, *effect, class, shape)
}

// What a rule brings about, by the class of its effect, which a kind hasn't.
fn effect_shape(class: &Option<Name>) -> Shape
    ensures { result ≡ effect_shape class.now }
{
    match class {
        Some(_) => Shape::Persistence,
        None => Shape::Event,
    }
}
