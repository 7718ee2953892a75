// What an edit makes of the broken protections, with what it left alone not looked at again.
ghost use Rattle.std.specs.Prelude.{◌≡◌, [], true, false, filter, is_some, IfOk, IsSome};
ghost use Rattle.std.specs.List.{Contains};
ghost use Rattle.tmm_model.specs.Answers.{reports};
ghost use Rattle.tmm_model.specs.Edits.{next_list};
ghost use Rattle.tmm_model.specs.Maps.{built};
ghost use Rattle.tmm_model.specs.Sorts.{class_in};
ghost use Rattle.tmm_model.specs.Standing.{Standing as AList};
ghost use Rattle.dist_net.specs.Net.{Nets, IsMovedAt};
ghost use Rattle.net_theory.specs.KeptNumbers.{IsThere};
ghost use Rattle.spots.specs.OfLists.{HasOccurrences};
ghost use Rattle.occ_tree.specs.OfLists.{IsTreeOf};
ghost use Rattle.occ_tree.specs.Places.{forest};
ghost use Rattle.list_theory.specs.LeftOut.{IsLeftOut};
ghost use Rattle.supports.specs.Apart.{AreOthersApart};
ghost use Rattle.supports.specs.Edited.{IsEdited};
ghost use Rattle.supports.specs.TimeMaps.{IsTimeMap};
ghost use Rattle.protections.specs.Found.{Found, AreFound, found_in};
ghost use Rattle.protections.specs.Kept.{IsStill, IsOfApart};
ghost use Rattle.protections.specs.Reviews.{Reviews, AreReviewed, IsReviewOf};

use crate::broken_protections::BrokenProtections;
use crate::lists::{push_some_to, push_to};
use crate::reporting::broken;
use crate::review::{Review, Reviewed};
use dist_net::DistNet;
use list_net::number_of;
use occ_tree::Tree;
use premise_list::Standing;
use std::alloc::Global;
use supports::TimeMap;
use tmm_model::{Edit, Name, NoMemory, PointName, Premise};

/// What an edit makes of the broken protections, given classes from which all others are apart. A
/// protection is looked at again only if the edit adds it, or its fact is of one of these classes,
/// or a point of it moved; where there is no class and nothing moved, premises are not walked.
pub fn review_edit(
    alloc: Global,
    standing: &Standing,
    tree: &Tree,
    net: &DistNet,
    edit: &Edit,
    classes: &[Name],
    erased: &[Name],
    old: &BrokenProtections,
) -> Result<Review, NoMemory>
    requires seen { IsTreeOf standing.now.present net.now.present tree.now }
    requires holds { HasOccurrences (built standing.now.present).believed (forest tree.now) }
    requires edited { IsEdited standing.now net.now edit.now tree.now }
    requires others { AreOthersApart standing.now net.now tree.now classes.now }
    requires left_out { IsLeftOut standing.now.committed standing.now.present erased.now }
    requires old { AreFound (reports (built standing.now.committed)) (found_in old.now) }
    ensures { IfOk result (IsReviewOf (built standing.now.committed) (built standing.now.present) (found_in old.now)) }
{
    let map = TimeMap {
        standing,
        tree,
        net,
    };
    let erased = broken_among(alloc, old, erased)?;
    let reviewed = if net.moved().is_empty() && classes.is_empty() {
        review_added(alloc, &map, edit, old)?
    } else {
        review_standing(alloc, &map, edit, classes, old)?
    };
    Ok(Review { erased, reviewed })
}

// Those of the names under which there is a report.
fn broken_among(
    alloc: Global,
    old: &BrokenProtections,
    names: &[Name],
) -> Result<Vec<Name>, NoMemory>
    ensures { IfOk result (λ found. found.items ≡ filter (λ name. is_some (found_in old.now name)) names.now) }
{
    let mut found = Vec::new(alloc);
    for name in names {
        if old.has(*name) {
            push_to(&mut found, *name)?;
        }
    }
    Ok(found)
}

// The protection that an edit adds, which touches no class and moves no point: all others are left
// alone.
fn review_added(
    alloc: Global,
    map: &TimeMap<'_>,
    edit: &Edit,
    old: &BrokenProtections,
) -> Result<Vec<Reviewed>, NoMemory>
    requires seen { IsTimeMap map.now }
    requires holds { HasOccurrences (built map.now.standing.now.present).believed (forest map.now.tree.now) }
    requires edited { IsEdited map.now.standing.now map.now.net.now edit.now map.now.tree.now }
    requires others { AreOthersApart map.now.standing.now map.now.net.now map.now.tree.now [] }
    requires unmoved { map.now.net.now.moved ≡ [] }
    requires old { AreFound (reports (built map.now.standing.now.committed)) (found_in old.now) }
    ensures { IfOk result (λ found. AreReviewed (built map.now.standing.now.present) (found_in old.now) map.now.standing.now.present.premises found.items) }
{
    // it tells the proof that the tokens of each class are those of the nodes
    map.tree.have_tokens();
    // and that nothing moved but what is listed
    let _ = map.net.moved();
    let mut found = Vec::new(alloc);
    if let Edit::Add(premise) = edit {
        push_some_to(&mut found, look(alloc, map, edit, old, premise)?)?;
    }
    Ok(found)
}

// The protections that an edit did not leave alone.
fn review_standing(
    alloc: Global,
    map: &TimeMap<'_>,
    edit: &Edit,
    classes: &[Name],
    old: &BrokenProtections,
) -> Result<Vec<Reviewed>, NoMemory>
    requires seen { IsTimeMap map.now }
    requires holds { HasOccurrences (built map.now.standing.now.present).believed (forest map.now.tree.now) }
    requires edited { IsEdited map.now.standing.now map.now.net.now edit.now map.now.tree.now }
    requires others { AreOthersApart map.now.standing.now map.now.net.now map.now.tree.now classes.now }
    requires old { AreFound (reports (built map.now.standing.now.committed)) (found_in old.now) }
    ensures { IfOk result (λ found. AreReviewed (built map.now.standing.now.present) (found_in old.now) map.now.standing.now.present.premises found.items) }
{
    let mut found = Vec::new(alloc);
    for i in 0..map.standing.len() {
        match map.standing.at(i) {
            Some(premise) => {
                if !is_left_alone(map, edit, classes, premise) {
                    push_some_to(&mut found, look(alloc, map, edit, old, premise)?)?;
                }
            }
            None => unreachable!(),
        }
    }
    Ok(found)
}

// A protection, looked at.
fn look(
    alloc: Global,
    map: &TimeMap<'_>,
    edit: &Edit,
    old: &BrokenProtections,
    premise: &Premise,
) -> Result<Option<Reviewed>, NoMemory>
    requires seen { IsTimeMap map.now }
    requires holds { HasOccurrences (built map.now.standing.now.present).believed (forest map.now.tree.now) }
    requires edited { IsEdited map.now.standing.now map.now.net.now edit.now map.now.tree.now }
    requires old { AreFound (reports (built map.now.standing.now.committed)) (found_in old.now) }
    requires stands { Contains map.now.standing.now.present.premises premise.now }
    ensures { IfOk result (Reviews (built map.now.standing.now.present) (found_in old.now) premise.now) }
{
    match premise {
        Premise::Protect { name, .. } => {
            let report = broken(alloc, map, premise)?;
            Ok(Some(Reviewed {
                name: *name,
                was_broken: old.has(*name),
                report,
            }))
        }
        _ => Ok(None),
    }
}

// Whether the edit left a premise alone, of which then the same is reported as before: it is no
// protection; or it stood before, neither of its points moved, and the class of its fact is not
// among these.
fn is_left_alone(map: &TimeMap<'_>, edit: &Edit, classes: &[Name], premise: &Premise) -> bool
    requires edited { IsEdited map.now.standing.now map.now.net.now edit.now map.now.tree.now }
    requires others { AreOthersApart map.now.standing.now map.now.net.now map.now.tree.now classes.now }
    requires stands { Contains map.now.standing.now.present.premises premise.now }
    ensures { result ≡ true → (found : Found) → AreFound (reports (built map.now.standing.now.committed)) found → Reviews (built map.now.standing.now.present) found premise.now None }
{
    let Premise::Protect { fact, from, to, .. } = premise else {
        return true;
    };
    if is_added(edit, premise) {
        return false;
    }
    if has_moved(map.net, *from) {
        return false;
    }
    if has_moved(map.net, *to) {
        return false;
    }
    is_untouched(map.standing, map.tree, classes, *fact)
}

// Whether the edit adds a premise of this name.
fn is_added(edit: &Edit, premise: &Premise) -> bool
    ensures { result ≡ false → (list : AList) → Contains (next_list list edit.now).premises premise.now → Contains list.premises premise.now }
{
    match edit {
        Edit::Add(added) => added.name() == premise.name(),
        _ => false,
    }
}

// Whether the point is one of those that moved.
fn has_moved(net: &DistNet, point: PointName) -> bool
    requires { IsThere net.now.present.names point }
    ensures still { result ≡ false → IsStill net.now point }
    ensures apart { IsMovedAt net.now.moved net.now.committed net.now.present }
{
    let moved = net.moved();
    !moved.is_empty() && moved.contains(&number_of(net, point))
}

// Whether the class of the fact is not among these.
fn is_untouched(standing: &Standing, tree: &Tree, classes: &[Name], fact: Name) -> bool
    requires { IsSome (class_in standing.now.present.premises fact) }
    ensures { result ≡ true → (nets : Nets) → AreOthersApart standing.now nets tree.now classes.now → IsOfApart standing.now nets tree.now fact }
{
    match standing.class_of(fact) {
        Some(class) => {
            // the tokens of each class are those of the nodes
            tree.have_tokens();
            !classes.contains(&class)
        }
        None => unreachable!(),
    }
}
