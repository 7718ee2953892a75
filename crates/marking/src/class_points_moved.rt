// Rows that wait since points moved, by the classes that they read.
ghost use Rattle.std.specs.Prelude.{◌≡◌, ℕ, List, true, false, IsSome, IfOk, OnOk};
ghost use Rattle.std.specs.List.{Contains};
ghost use Rattle.row_links.specs.Lists.{IsOn};
ghost use Rattle.spots.specs.Forest.{IsLive};
ghost use Rattle.occ_tree.specs.Places.{forest};
ghost use Rattle.occ_tree.specs.Standing.{present};
ghost use Rattle.occ_tree.specs.Touched.{IsUntouched};
ghost use Rattle.undo_rows.specs.Changes.{present as table};
ghost use Rattle.joined.specs.Listed.{IsListedUnder};
ghost use Rattle.joined.specs.Shifting.{SparesClass};
ghost use Rattle.bearing.specs.Fast.{is_out};
ghost use Rattle.belief_table.specs.Marks.{HaveEvents};
ghost use Rattle.bearing.specs.PointSets.{HaveBothIn};
ghost use Rattle.bearing.specs.Reach.{AreBelow256};
ghost use Rattle.belief_table.specs.Waiting.{dates_in};
ghost use Rattle.marking.specs.Woken.{TellMoves, MovesFor, RestsFor, AreMovesOf, AreAwake, WakesFor};

use bearing::events::Events;
use bearing::events_touched::touched_by;
use bearing::loose_tokens::{Shift, shifts_of, spares};
use bearing::points_of_class::{is_class_at, reach_of};
use bearing::what_moved::Moves;
use belief_table::Waiting;
use decision_rows::Rows;
use dist_net::DistNet;
use occ_tree::Tree;
use std::alloc::Global;
use tmm_model::{Name, NoMemory};

/// What moved, as far as a class goes.
#[derive(Drop)]
pub(crate) struct ClassMoves {
    /// The class.
    pub class: Name,
    /// The events at which a decision that reads it depends on a distance that is another one now.
    pub events: Events,
    /// Its loose tokens; none where these are too many, or one of them is new.
    pub shifts: Option<Vec<Shift>>,
}

// Lets those rows wait that read a class, by its number, and may not rest. None has to be looked at
// where the rows of events that moved wait, and no token of the class moved; nor where no distance
// of `start` or of a token of the class is another one now, so that none of these is at one of the
// points.
pub(crate) fn wake_touched(
    alloc: Global,
    net: &DistNet,
    tree: &Tree,
    rows: &Rows,
    waiting: &mut Waiting,
    moves: &Moves,
    number: u32,
    class: Name,
    touched: &[Name],
    awake: bool,
    points: &[bool],
) -> Result<(), NoMemory>
    requires events { HaveEvents tree.now (table rows.now) }
    requires below { AreBelow256 (forest tree.now) }
    requires moves { TellMoves net.now moves.now }
    requires untouched { (other : List ℕ) → (Contains touched.now other → ⊥) → IsUntouched net.now tree.now other }
    requires awake { awake ≡ true → AreAwake net.now (forest tree.now) (table rows.now) (dates_in waiting.old) }
    requires points { HaveBothIn moves.now.pairs.items points.now }
    ensures { OnOk result (WakesFor (present tree.now) (table rows.now) net.now moves.now class (IsListedUnder (table rows.now) number) (dates_in waiting.old) (dates_in waiting.new)) }
{
    if awake && !touched.contains(&class) {
        return Ok(());
    }
    if !is_class_at(tree, &class, points) {
        return Ok(());
    }
    wake_class(alloc, net, tree, rows, waiting, moves, number, class)
}

// Lets those rows wait that read a class, by its number, and may not rest.
fn wake_class(
    alloc: Global,
    net: &DistNet,
    tree: &Tree,
    rows: &Rows,
    waiting: &mut Waiting,
    moves: &Moves,
    number: u32,
    class: Name,
) -> Result<(), NoMemory>
    requires events { HaveEvents tree.now (table rows.now) }
    requires below { AreBelow256 (forest tree.now) }
    requires moves { TellMoves net.now moves.now }
    ensures { OnOk result (WakesFor (present tree.now) (table rows.now) net.now moves.now class (IsListedUnder (table rows.now) number) (dates_in waiting.old) (dates_in waiting.new)) }
{
    let of_class = class_moves(alloc, net, tree, moves, class)?;
    // the families of rows by the classes of what they read follow those by trigger and by rule
    for place in 0..6 {
        wake_list(
            net,
            tree,
            rows,
            waiting,
            moves,
            &of_class,
            place + 2,
            number,
        )?;
    }
    Ok(())
}

// What moved, as far as a class goes.
fn class_moves(
    alloc: Global,
    net: &DistNet,
    tree: &Tree,
    moves: &Moves,
    class: Name,
) -> Result<ClassMoves, NoMemory>
    requires below { AreBelow256 (forest tree.now) }
    requires moves { TellMoves net.now moves.now }
    ensures class { IfOk result (λ of_class. of_class.class ≡ class) }
    ensures moves { IfOk result (AreMovesOf net.now moves.now (present tree.now)) }
{
    let reach = reach_of(alloc, tree, &class)?;
    let events = touched_by(alloc, &moves.pairs, net.moved(), &reach)?;
    let shifts = shifts_of(alloc, net, tree, moves, &reach.all, &class)?;
    Ok(ClassMoves {
        class,
        events,
        shifts,
    })
}

// Lets those rows of a list wait that may not rest.
fn wake_list(
    net: &DistNet,
    tree: &Tree,
    rows: &Rows,
    waiting: &mut Waiting,
    moves: &Moves,
    of_class: &ClassMoves,
    family: usize,
    head: u32,
) -> Result<(), NoMemory>
    requires events { HaveEvents tree.now (table rows.now) }
    requires moves { TellMoves net.now moves.now }
    requires class { AreMovesOf net.now moves.now (present tree.now) of_class.now }
    ensures { OnOk result (WakesFor (present tree.now) (table rows.now) net.now moves.now of_class.now.class (IsOn ((table rows.now).list family head)) (dates_in waiting.old) (dates_in waiting.new)) }
{
    let mut next = rows.first(family, head);
    while let Some(i) = next {
        wake_row(net, tree, rows, waiting, moves, of_class, i)?;
        next = rows.next(family, i);
    }
    Ok(())
}

// Lets a row wait if it may not rest.
fn wake_row(
    net: &DistNet,
    tree: &Tree,
    rows: &Rows,
    waiting: &mut Waiting,
    moves: &Moves,
    of_class: &ClassMoves,
    i: u32,
) -> Result<(), NoMemory>
    requires events { HaveEvents tree.now (table rows.now) }
    requires moves { TellMoves net.now moves.now }
    requires class { AreMovesOf net.now moves.now (present tree.now) of_class.now }
    requires row { IsSome ((table rows.now).row i) }
    ensures { OnOk result (WakesFor (present tree.now) (table rows.now) net.now moves.now of_class.now.class (λ j. j ≡ i) (dates_in waiting.old) (dates_in waiting.new)) }
{
    if waiting.has(i) {
        return Ok(());
    }
    let (trigger, _) = rows.pair(i);
    if may_rest(net, tree, moves, of_class, trigger) {
        Ok(())
    } else {
        waiting.push(i, tree.early(trigger))
    }
}

// Whether decisions that read a class may rest at the event of a node.
fn may_rest(net: &DistNet, tree: &Tree, moves: &Moves, of_class: &ClassMoves, x: u32) -> bool
    requires node { IsLive (forest tree.now) x }
    requires moves { TellMoves net.now moves.now }
    requires class { AreMovesOf net.now moves.now (present tree.now) of_class.now }
    ensures rests { result ≡ true → RestsFor net.now moves.now (forest tree.now) of_class.now.class x }
    ensures waits { result ≡ false → MovesFor moves.now (forest tree.now) of_class.now.class x }
{
    // most events are none of these, and that is found sooner
    !of_class.events.has(tree, x) || is_spared(net, tree, moves, of_class, x)
}

// Whether all loose tokens of the class bear on no decision at the event of a node, before and
// after.
fn is_spared(net: &DistNet, tree: &Tree, moves: &Moves, of_class: &ClassMoves, x: u32) -> bool
    requires node { IsLive (forest tree.now) x }
    requires moves { TellMoves net.now moves.now }
    requires class { AreMovesOf net.now moves.now (present tree.now) of_class.now }
    ensures { result ≡ true → SparesClass net.now (forest tree.now) (is_out moves.now.fast.items) of_class.now.class x }
{
    match &of_class.shifts {
        Some(shifts) => spares(net, tree, &moves.fast, shifts, x),
        None => false,
    }
}
