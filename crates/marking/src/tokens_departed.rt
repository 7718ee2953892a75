// Rows on which what left may have borne.
ghost use Rattle.std.specs.Prelude.{◌≡◌, IsSome, OnOk};
ghost use Rattle.std.specs.List.{All};
ghost use Rattle.list_theory.proofs.Elements.{In};
ghost use Rattle.dist_net.specs.Net.{IsInUse};
ghost use Rattle.row_links.specs.Lists.{IsOn};
ghost use Rattle.occ_tree.specs.Places.{forest};
ghost use Rattle.occ_tree.specs.Standing.{present};
ghost use Rattle.undo_rows.specs.Changes.{present as table};
ghost use Rattle.joined.specs.Listed.{IsListedUnder};
ghost use Rattle.marking.specs.LeftMarks.{MarksClasses, MarksFacts, MarksGone, MarksLeft, MarksRead, MarksTokens, WakesGone};
ghost use Rattle.belief_table.specs.Decided.{table_of, AreOfSome, KeepsLast};
ghost use Rattle.bearing.specs.Gone.{BeginIn, IsBehindGone};
ghost use Rattle.belief_table.specs.Marks.{HaveEvents};
ghost use Rattle.belief_table.specs.Waiting.{dates_in};

use crate::rival_points_moved::says_none;
use crate::rivals_of_token::mark_rivals;
use crate::token_moves::mark_token;
use bearing::gone_tokens::{Gone, spares, walls_of};
use bearing::walls::FastToken;
use belief_table::{Decisions, Departed, Numbers, Waiting};
use decision_rows::Rows;
use dist_net::DistNet;
use occ_tree::Tree;
use premise_list::Standing;
use std::alloc::Global;
use tmm_model::NoMemory;

// Where more tokens left than these, all rows wait that read one of their classes: marks are to cost
// less than the decisions that they save.
const FEW: usize = 32;

/// Lets those rows wait on which a token among those that left may have borne, of those that read one
/// of their classes, and those whose rules read what contradicts one of their facts. No event is
/// before 0.
pub fn mark_departed(
    alloc: Global,
    standing: &Standing,
    net: &DistNet,
    tree: &Tree,
    decisions: &mut Decisions,
    departed: &Departed,
) -> Result<(), NoMemory>
    requires events { HaveEvents tree.now (table_of decisions.old) }
    requires under { AreOfSome decisions.old }
    requires nodes { BeginIn net.now.committed (forest tree.now) }
    requires tokens { All (λ gone. IsInUse net.now.committed.names gone.place.base) departed.now.tokens.items }
    requires classes { All (λ gone. In gone.class departed.now.classes) departed.now.tokens.items }
    ensures ok { OnOk result (MarksLeft standing.now.committed standing.now.present net.now.committed (present tree.now) departed.now decisions.old decisions.new) }
    ensures last { KeepsLast decisions.old decisions.new }
{
    mark_read(alloc, standing, net, tree, decisions, departed)?;
    mark_facts(standing, tree, decisions, &departed.facts)
}

// Lets those rows wait that read the class of a token that left. Where few tokens did, and no premise
// sets facts against each other, those rest at whose events it bore on no decision: a fact that is
// set against others bears on more than its class.
fn mark_read(
    alloc: Global,
    standing: &Standing,
    net: &DistNet,
    tree: &Tree,
    decisions: &mut Decisions,
    departed: &Departed,
) -> Result<(), NoMemory>
    requires events { HaveEvents tree.now (table_of decisions.old) }
    requires nodes { BeginIn net.now.committed (forest tree.now) }
    requires tokens { All (λ gone. IsInUse net.now.committed.names gone.place.base) departed.now.tokens.items }
    requires classes { All (λ gone. In gone.class departed.now.classes) departed.now.tokens.items }
    ensures ok { OnOk result (MarksRead standing.now.committed standing.now.present net.now.committed (present tree.now) departed.now.classes departed.now.tokens.items decisions.old decisions.new) }
    ensures last { KeepsLast decisions.old decisions.new }
{
    if departed.tokens.len() <= FEW && says_none(standing) {
        mark_tokens(alloc, net, tree, decisions, &departed.tokens)
    } else {
        mark_classes(tree, decisions, &departed.classes)
    }
}

// Lets all rows wait that may read a token of one of these classes.
fn mark_classes(tree: &Tree, decisions: &mut Decisions, classes: &Numbers) -> Result<(), NoMemory>
    requires { HaveEvents tree.now (table_of decisions.old) }
    ensures ok { OnOk result (MarksClasses (present tree.now) classes.now decisions.old decisions.new) }
    ensures last { KeepsLast decisions.old decisions.new }
{
    // it tells the proof that rows are on their lists
    let _ = decisions.rows.first(0, 0);
    for k in 0..classes.len() {
        mark_token(tree, decisions, classes.name(k), 0)?;
    }
    Ok(())
}

// Lets those rows wait that read the class of one of these tokens, but for events at which it bore
// on no decision.
fn mark_tokens(
    alloc: Global,
    net: &DistNet,
    tree: &Tree,
    decisions: &mut Decisions,
    tokens: &[Gone],
) -> Result<(), NoMemory>
    requires events { HaveEvents tree.now (table_of decisions.old) }
    requires nodes { BeginIn net.now.committed (forest tree.now) }
    requires tokens { All (λ gone. IsInUse net.now.committed.names gone.place.base) tokens.now }
    ensures ok { OnOk result (MarksTokens net.now.committed (present tree.now) tokens.now decisions.old decisions.new) }
    ensures last { KeepsLast decisions.old decisions.new }
{
    // it tells the proof that rows are on their lists
    let _ = decisions.rows.first(0, 0);
    for k in 0..tokens.len() {
        mark_gone(alloc, net, tree, decisions, &tokens[k])?;
    }
    Ok(())
}

// Lets those rows wait that read the class of a token that left, but for events at which it bore on
// no decision.
fn mark_gone(
    alloc: Global,
    net: &DistNet,
    tree: &Tree,
    decisions: &mut Decisions,
    gone: &Gone,
) -> Result<(), NoMemory>
    requires events { HaveEvents tree.now (table_of decisions.old) }
    requires nodes { BeginIn net.now.committed (forest tree.now) }
    requires gone { IsInUse net.now.committed.names gone.now.place.base }
    ensures ok { OnOk result (MarksGone net.now.committed (present tree.now) gone.now decisions.old decisions.new) }
    ensures last { KeepsLast decisions.old decisions.new }
{
    let number = decisions.classes.enter(gone.class)?;
    let walls = walls_of(alloc, net, tree, gone)?;
    wake_under(
        net,
        tree,
        &decisions.rows,
        &mut decisions.waiting,
        gone,
        &walls,
        number,
    )
}

// Lets those rows wait that read a class, by its number, but for events at which the token that
// left bore on no decision.
fn wake_under(
    net: &DistNet,
    tree: &Tree,
    rows: &Rows,
    waiting: &mut Waiting,
    gone: &Gone,
    walls: &[FastToken],
    number: u32,
) -> Result<(), NoMemory>
    requires events { HaveEvents tree.now (table rows.now) }
    requires nodes { BeginIn net.now.committed (forest tree.now) }
    requires gone { IsInUse net.now.committed.names gone.now.place.base }
    requires walls { All (IsBehindGone net.now.committed (forest tree.now) gone.now) walls.now }
    ensures { OnOk result (WakesGone (present tree.now) (table rows.now) net.now.committed gone.now (IsListedUnder (table rows.now) number) (dates_in waiting.old) (dates_in waiting.new)) }
{
    // the families of rows by the classes of what they read follow those by trigger and by rule
    for place in 0..6 {
        wake_list(net, tree, rows, waiting, gone, walls, place + 2, number)?;
    }
    Ok(())
}

// Lets those rows of a list wait that are not at events at which the token that left bore on no
// decision.
fn wake_list(
    net: &DistNet,
    tree: &Tree,
    rows: &Rows,
    waiting: &mut Waiting,
    gone: &Gone,
    walls: &[FastToken],
    family: usize,
    head: u32,
) -> Result<(), NoMemory>
    requires events { HaveEvents tree.now (table rows.now) }
    requires nodes { BeginIn net.now.committed (forest tree.now) }
    requires gone { IsInUse net.now.committed.names gone.now.place.base }
    requires walls { All (IsBehindGone net.now.committed (forest tree.now) gone.now) walls.now }
    ensures { OnOk result (WakesGone (present tree.now) (table rows.now) net.now.committed gone.now (IsOn ((table rows.now).list family head)) (dates_in waiting.old) (dates_in waiting.new)) }
{
    let mut next = rows.first(family, head);
    while let Some(i) = next {
        wake_row(net, tree, rows, waiting, gone, walls, i)?;
        next = rows.next(family, i);
    }
    Ok(())
}

// Lets a row wait if it is not at an event at which the token that left bore on no decision.
fn wake_row(
    net: &DistNet,
    tree: &Tree,
    rows: &Rows,
    waiting: &mut Waiting,
    gone: &Gone,
    walls: &[FastToken],
    i: u32,
) -> Result<(), NoMemory>
    requires events { HaveEvents tree.now (table rows.now) }
    requires row { IsSome ((table rows.now).row i) }
    requires nodes { BeginIn net.now.committed (forest tree.now) }
    requires gone { IsInUse net.now.committed.names gone.now.place.base }
    requires walls { All (IsBehindGone net.now.committed (forest tree.now) gone.now) walls.now }
    ensures { OnOk result (WakesGone (present tree.now) (table rows.now) net.now.committed gone.now (λ j. j ≡ i) (dates_in waiting.old) (dates_in waiting.new)) }
{
    if waiting.has(i) {
        return Ok(());
    }
    let (trigger, _) = rows.pair(i);
    if spares(net, tree, gone, walls, trigger) {
        Ok(())
    } else {
        waiting.push(i, tree.early(trigger))
    }
}

// Lets all rows wait whose rules read what contradicts one of these facts.
fn mark_facts(
    standing: &Standing,
    tree: &Tree,
    decisions: &mut Decisions,
    facts: &Numbers,
) -> Result<(), NoMemory>
    requires events { HaveEvents tree.now (table_of decisions.old) }
    requires under { AreOfSome decisions.old }
    ensures ok { OnOk result (MarksFacts standing.now.present (present tree.now) facts.now decisions.old decisions.new) }
    ensures others { decisions.new ≡ record decisions.old { waiting = decisions.new.waiting } }
{
    for k in 0..facts.len() {
        mark_rivals(standing, tree, decisions, facts.name(k), 0)?;
    }
    Ok(())
}
