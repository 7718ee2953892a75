// The candidates for a broken protection, tried one after the other.
ghost use Rattle.std.specs.Prelude.{◌≡◌, ◌≢◌, ◌↔◌, IsTrue, ◌<◌, ℕ, false, [], ◌∷◌, None, map, length, slice_get, Some, OnOk, IfOk, IfErr, IfNone, IfSome};
ghost use Rattle.std.specs.List.{All, Contains, flat_map};
ghost use Rattle.tmm_model.specs.declared.bound.Bound.TheVariants.{Finite, Free};
ghost use Rattle.tmm_model.specs.declared.premise.Premise.{Premise as Stated};
ghost use Rattle.tmm_model.specs.declared.premise.Premise.TheVariants.{Dist};
ghost use Rattle.tmm_model.specs.Answers.{blame_of, does_hold, finding_of};
ghost use Rattle.tmm_model.specs.Lines.{IsNumber, IsWellFormedEdit, IsWellFormedPremise};
ghost use Rattle.tmm_model.specs.Sorts.{sort_in};
ghost use Rattle.tmm_model.specs.Standing.{name_of};
ghost use Rattle.tmm_model.specs.Verdicts.{list_cause, name_cause};
ghost use Rattle.repairs.specs.Aims.{IsAim, GrowsBy};
ghost use Rattle.repairs.specs.Refusals.{StopsRepairs, NamesRepairs};
ghost use Rattle.repairs.specs.Repairs.{AreRepairs, AreThose, IsRepair, added_against, added_for, candidates_for, edits_of, is_protection, protects, taken_from};
ghost use Rattle.repairs.specs.Trials.{IsErased};

use crate::aim::Aim;
use crate::free_names::free_name;
use crate::protection::{Extent, extent_of};
use crate::trials::{Erased, is_mending};
use map_core::{Copies, MapCore};
use premise_list::Standing;
use std::alloc::Global;
use tmm_model::{
    Answer, Blame, Bound, Cause, Edit, Fix, Name, NoMemory, PointName, Premise, Report, Seq, Stop,
};

/// The small changes that mend the protection of this name and break no other, in the order of the
/// candidates: none where it is not broken. A name that is that of no protection is refused. Each
/// candidate is made and undone again, on the map itself or on a copy of it: the map is as before
/// whatever is answered, and a counter of the caller's counts no decision.
pub fn repairs<M: Copies + Drop>(alloc: Global, core: &mut M, name: Name) -> Result<Seq<Fix>, Stop>
    requires idle { M.pending core.old ≡ None }
    requires well_formed { All IsWellFormedPremise (M.list core.old).premises }
    ensures known { OnOk result (name_cause (sort_in (M.list core.old).premises name) name is_protection ≡ None) }
    ensures repairs { IfOk result (λ fixes. AreRepairs (M.list core.old) name fixes.items) }
    ensures stops { IfErr result (StopsRepairs (M.list core.old) name) }
    ensures named { IfErr result NamesRepairs }
    ensures list { M.list core.new ≡ M.list core.old }
    ensures idle { M.pending core.new ≡ None }
{
    core.standing().invariants();
    let extent = match extent_of(core.standing(), name) {
        Ok(extent) => extent,
        Err(refusal) => return Err(Stop::Refused(refusal)),
    };
    let broken = core.check(alloc)?;
    match report_of(broken.items(), name) {
        Some(report) => {
            let aim = Aim {
                name,
                free: free_name(core.standing()),
            };
            Ok(try_candidates(alloc, core, &aim, &extent, &report.answer)?)
        }
        None => Ok(Seq::make(alloc)),
    }
}

// The report on the protection of this name.
fn report_of(broken: &[Report], name: Name) -> Option<&Report>
    ensures found { IfSome result (λ report. Contains broken.now report.now × (report.now.name ≡ name)) }
    ensures other { IfNone result (All (λ report. report.name ≢ name) broken.now) }
{
    broken.iter().find(|report| report.name == name)
}

// The repairs among the candidates, where this is found of the protection's fact.
fn try_candidates<M: Copies + Drop>(
    alloc: Global,
    core: &mut M,
    aim: &Aim,
    extent: &Extent,
    answer: &Answer,
) -> Result<Seq<Fix>, NoMemory>
    requires idle { M.pending core.old ≡ None }
    requires aim { IsAim (M.list core.old) aim.now }
    requires broken { does_hold (finding_of answer.now) ≡ false }
    ensures repairs { IfOk result (λ fixes. AreThose (IsRepair (M.list core.old) aim.now.name) (candidates_for (M.list core.old) extent.now.from extent.now.to (finding_of answer.now)) fixes.items) }
    ensures list { M.list core.new ≡ M.list core.old }
    ensures idle { M.pending core.new ≡ None }
{
    let mut fixes = Seq::make(alloc);
    try_all_added(alloc, core, aim, extent, answer, &mut fixes)?;
    try_all_taken(alloc, core, aim, &mut fixes)?;
    Ok(fixes)
}

// Tries each constraint that might be added.
fn try_all_added<M: MapCore>(
    alloc: Global,
    core: &mut M,
    aim: &Aim,
    extent: &Extent,
    answer: &Answer,
    fixes: &mut Seq<Fix>,
) -> Result<(), NoMemory>
    requires idle { M.pending core.old ≡ None }
    requires aim { IsAim (M.list core.old) aim.now }
    ensures fixes { OnOk result (GrowsBy (M.list core.old) aim.now (added_for extent.now.from extent.now.to (finding_of answer.now)) fixes.old.items fixes.new.items) }
    ensures list { M.list core.new ≡ M.list core.old }
    ensures idle { M.pending core.new ≡ None }
{
    match answer {
        Answer::Yes(_) => Ok(()),
        Answer::No { blames, .. } => { try_blames(alloc, core, aim, extent, blames.items(), fixes) }
        Answer::Unordered => {
            let in_order = Spacing {
                from: extent.from,
                to: extent.to,
                lo: 0,
            };
            try_added(alloc, core, aim, &in_order, fixes)
        }
    }
}

// Tries the constraints that might help against the blames.
fn try_blames<M: MapCore>(
    alloc: Global,
    core: &mut M,
    aim: &Aim,
    extent: &Extent,
    blames: &[Blame],
    fixes: &mut Seq<Fix>,
) -> Result<(), NoMemory>
    requires idle { M.pending core.old ≡ None }
    requires aim { IsAim (M.list core.old) aim.now }
    ensures fixes { OnOk result (GrowsBy (M.list core.old) aim.now (flat_map (added_against extent.now.from extent.now.to) (map blame_of blames.now)) fixes.old.items fixes.new.items) }
    ensures list { M.list core.new ≡ M.list core.old }
    ensures idle { M.pending core.new ≡ None }
{
    for blame in blames {
        try_blame(alloc, core, aim, extent, blame, fixes)?;
    }
    Ok(())
}

// Tries the constraint that might help against a blame.
fn try_blame<M: MapCore>(
    alloc: Global,
    core: &mut M,
    aim: &Aim,
    extent: &Extent,
    blame: &Blame,
    fixes: &mut Seq<Fix>,
) -> Result<(), NoMemory>
    requires idle { M.pending core.old ≡ None }
    requires aim { IsAim (M.list core.old) aim.now }
    ensures fixes { OnOk result (GrowsBy (M.list core.old) aim.now (added_against extent.now.from extent.now.to (blame_of blame.now)) fixes.old.items fixes.new.items) }
    ensures list { M.list core.new ≡ M.list core.old }
    ensures idle { M.pending core.new ≡ None }
{
    if !blame.token.rules.items().is_empty() {
        return Ok(());
    }
    let root = blame.token.root;
    match blame.cause {
        Cause::Late => {
            let in_time = Spacing {
                from: PointName::Begin(root),
                to: extent.from,
                lo: 0,
            };
            try_added(alloc, core, aim, &in_time, fixes)
        }
        Cause::Clipped(_) => Ok(()),
        Cause::Ends => {
            let long_enough = Spacing {
                from: extent.to,
                to: PointName::End(root),
                lo: 1,
            };
            try_added(alloc, core, aim, &long_enough, fixes)
        }
    }
}

/// A constraint that might be added: the second point is at least `lo` whole time units after the
/// first.
#[derive(Clone, Copy)]
pub(crate) struct Spacing {
    pub from: PointName,
    pub to: PointName,
    pub lo: i64,
}

impl Spacing {
    // The fix that adds the constraint.
    fn fix(&self) -> Fix
        ensures { result ≡ Fix.Add self.now.from self.now.to self.now.lo }
    {
        Fix::Add {
            from: self.from,
            to: self.to,
            lo: self.lo,
        }
    }

    // The edit that adds it under the free name.
    fn edit(&self, aim: &Aim) -> Edit
        ensures { result ≡ Edit.Add (Dist aim.now.free self.now.from self.now.to (Finite self.now.lo) Free) }
    {
        Edit::Add(Premise::Dist {
            name: aim.free,
            from: self.from,
            to: self.to,
            lo: Bound::Finite(self.lo),
            hi: Bound::Free,
        })
    }
}

// Tries to add a constraint.
fn try_added<M: MapCore>(
    alloc: Global,
    core: &mut M,
    aim: &Aim,
    spacing: &Spacing,
    fixes: &mut Seq<Fix>,
) -> Result<(), NoMemory>
    requires idle { M.pending core.old ≡ None }
    requires aim { IsAim (M.list core.old) aim.now }
    requires lo { IsNumber spacing.now.lo }
    ensures fixes { OnOk result (GrowsBy (M.list core.old) aim.now (Fix.Add spacing.now.from spacing.now.to spacing.now.lo ∷ []) fixes.old.items fixes.new.items) }
    ensures list { M.list core.new ≡ M.list core.old }
    ensures idle { M.pending core.new ≡ None }
{
    let edit = spacing.edit(aim);
    // what names and counts do not let through may name no point
    if is_let_through(core.standing(), &edit) {
        try_edit(alloc, core, aim, &spacing.fix(), &edit, fixes)
    } else {
        Ok(())
    }
}

// Whether no cause among names and counts stands against the edit.
fn is_let_through(standing: &Standing, edit: &Edit) -> bool
    ensures { IsTrue result ↔ (list_cause standing.now.present edit.now ≡ None) }
{
    standing.check(edit).is_ok()
}

// Tries a fix of one edit.
fn try_edit<M: MapCore>(
    alloc: Global,
    core: &mut M,
    aim: &Aim,
    fix: &Fix,
    edit: &Edit,
    fixes: &mut Seq<Fix>,
) -> Result<(), NoMemory>
    requires idle { M.pending core.old ≡ None }
    requires aim { IsAim (M.list core.old) aim.now }
    requires edits { edits_of (M.list core.old) aim.now.free fix.now ≡ edit.now ∷ [] }
    requires well_formed { IsWellFormedEdit edit.now }
    ensures fixes { OnOk result (GrowsBy (M.list core.old) aim.now (fix.now ∷ []) fixes.old.items fixes.new.items) }
    ensures list { M.list core.new ≡ M.list core.old }
    ensures idle { M.pending core.new ≡ None }
{
    if is_mending(alloc, core, aim.name, edit)? {
        fixes.append(*fix)?;
    }
    Ok(())
}

// Tries what might be taken from each premise.
fn try_all_taken<M: Copies + Drop>(
    alloc: Global,
    core: &mut M,
    aim: &Aim,
    fixes: &mut Seq<Fix>,
) -> Result<(), NoMemory>
    requires idle { M.pending core.old ≡ None }
    requires aim { IsAim (M.list core.old) aim.now }
    ensures fixes { OnOk result (GrowsBy (M.list core.old) aim.now (flat_map taken_from (M.list core.old).premises) fixes.old.items fixes.new.items) }
    ensures list { M.list core.new ≡ M.list core.old }
    ensures idle { M.pending core.new ≡ None }
{
    for place in 0..core.standing().len() {
        try_taken_at(alloc, core, aim, place, fixes)?;
    }
    Ok(())
}

// Tries what might be taken from the premise at this place.
fn try_taken_at<M: Copies + Drop>(
    alloc: Global,
    core: &mut M,
    aim: &Aim,
    place: usize,
    fixes: &mut Seq<Fix>,
) -> Result<(), NoMemory>
    requires idle { M.pending core.old ≡ None }
    requires aim { IsAim (M.list core.old) aim.now }
    requires place { place < length (M.list core.old).premises }
    ensures fixes { OnOk result ((premise : Stated) → slice_get (M.list core.old).premises place ≡ Some premise → GrowsBy (M.list core.old) aim.now (taken_from premise) fixes.old.items fixes.new.items) }
    ensures list { M.list core.new ≡ M.list core.old }
    ensures idle { M.pending core.new ≡ None }
{
    let (name, constraint) = parts_at(core.standing(), place);
    let erase = Edit::Erase(name);
    try_edit(alloc, core, aim, &Fix::Erase(name), &erase, fixes)?;
    match constraint {
        Some(constraint) => try_loosened(alloc, core, aim, &constraint, fixes),
        None => Ok(()),
    }
}

/// A constraint with two numbers, in whole time units.
#[derive(Clone, Copy)]
pub(crate) struct Constraint {
    pub name: Name,
    pub from: PointName,
    pub to: PointName,
    pub lo: i64,
    pub hi: i64,
}

// The name of the premise at this place, and the constraint with two numbers that it is.
fn parts_at(standing: &Standing, place: usize) -> (Name, Option<Constraint>)
    requires { place < length standing.now.present.premises }
    ensures name { (premise : Stated) → slice_get standing.now.present.premises place ≡ Some premise → result.0 ≡ name_of premise }
    ensures whole { IfNone result.1 ((premise : Stated) → slice_get standing.now.present.premises place ≡ Some premise → taken_from premise ≡ Fix.Erase (name_of premise) ∷ []) }
    ensures constraint { IfSome result.1 (λ c. slice_get standing.now.present.premises place ≡ Some (Dist c.name c.from c.to (Finite c.lo) (Finite c.hi))) }
{
    match standing.at(place) {
        Some(premise) => (premise.name(), constraint_of(premise)),
        None => unreachable!(),
    }
}

// The constraint with two numbers that the premise is.
fn constraint_of(premise: &Premise) -> Option<Constraint>
    ensures whole { IfNone result (taken_from premise.now ≡ Fix.Erase (name_of premise.now) ∷ []) }
    ensures constraint { IfSome result (λ c. premise.now ≡ Dist c.name c.from c.to (Finite c.lo) (Finite c.hi)) }
{
    match premise {
        Premise::Dist {
            name,
            from,
            to,
            lo: Bound::Finite(lo),
            hi: Bound::Finite(hi),
        } => Some(Constraint {
            name: *name,
            from: *from,
            to: *to,
            lo: *lo,
            hi: *hi,
        }),
        _ => None,
    }
}

// Tries to give up either bound of a constraint.
fn try_loosened<M: Copies + Drop>(
    alloc: Global,
    core: &M,
    aim: &Aim,
    constraint: &Constraint,
    fixes: &mut Seq<Fix>,
) -> Result<(), NoMemory>
    requires idle { M.pending core.now ≡ None }
    requires aim { IsAim (M.list core.now) aim.now }
    requires stands { Contains (M.list core.now).premises (Dist constraint.now.name constraint.now.from constraint.now.to (Finite constraint.now.lo) (Finite constraint.now.hi)) }
    ensures { OnOk result (GrowsBy (M.list core.now) aim.now (Fix.LoosenLo constraint.now.name ∷ Fix.LoosenHi constraint.now.name ∷ []) fixes.old.items fixes.new.items) }
{
    match Erased::make(alloc, core, constraint.name)? {
        Some(mut erased) => {
            try_either_side(alloc, core.standing(), &mut erased, aim, constraint, fixes)
        }
        None => Ok(()),
    }
}

// Tries to add the constraint again, without either bound.
fn try_either_side<M: Copies + Drop>(
    alloc: Global,
    standing: &Standing,
    erased: &mut Erased<M>,
    aim: &Aim,
    constraint: &Constraint,
    fixes: &mut Seq<Fix>,
) -> Result<(), NoMemory>
    requires erased { IsErased M.list M.pending standing.now.present constraint.now.name erased.old }
    requires aim { IsAim standing.now.present aim.now }
    requires stands { Contains standing.now.present.premises (Dist constraint.now.name constraint.now.from constraint.now.to (Finite constraint.now.lo) (Finite constraint.now.hi)) }
    ensures { OnOk result (GrowsBy standing.now.present aim.now (Fix.LoosenLo constraint.now.name ∷ Fix.LoosenHi constraint.now.name ∷ []) fixes.old.items fixes.new.items) }
{
    let lo = Fix::LoosenLo(constraint.name);
    try_again(
        alloc,
        standing,
        erased,
        aim,
        &lo,
        without_lo(constraint),
        fixes,
    )?;
    let hi = Fix::LoosenHi(constraint.name);
    try_again(
        alloc,
        standing,
        erased,
        aim,
        &hi,
        without_hi(constraint),
        fixes,
    )
}

// Tries a fix that adds the premise after the one of its name was erased.
fn try_again<M: Copies + Drop>(
    alloc: Global,
    standing: &Standing,
    erased: &mut Erased<M>,
    aim: &Aim,
    fix: &Fix,
    premise: Premise,
    fixes: &mut Seq<Fix>,
) -> Result<(), NoMemory>
    requires erased { IsErased M.list M.pending standing.now.present (name_of premise) erased.old }
    requires aim { IsAim standing.now.present aim.now }
    requires edits { edits_of standing.now.present aim.now.free fix.now ≡ Edit.Erase (name_of premise) ∷ Edit.Add premise ∷ [] }
    requires other { protects premise ≡ false }
    requires well_formed { IsWellFormedPremise premise }
    ensures fixes { OnOk result (GrowsBy standing.now.present aim.now (fix.now ∷ []) fixes.old.items fixes.new.items) }
    ensures erased { IsErased M.list M.pending standing.now.present (name_of premise) erased.new }
{
    let name = premise.name();
    let edit = Edit::Add(premise);
    if erased.is_mending(alloc, standing, &name, &aim.name, &edit)? {
        fixes.append(*fix)?;
    }
    Ok(())
}

// The constraint without its lower bound.
fn without_lo(constraint: &Constraint) -> Premise
    ensures { result ≡ Dist constraint.now.name constraint.now.from constraint.now.to Free (Finite constraint.now.hi) }
{
    Premise::Dist {
        name: constraint.name,
        from: constraint.from,
        to: constraint.to,
        lo: Bound::Free,
        hi: Bound::Finite(constraint.hi),
    }
}

// The constraint without its upper bound.
fn without_hi(constraint: &Constraint) -> Premise
    ensures { result ≡ Dist constraint.now.name constraint.now.from constraint.now.to (Finite constraint.now.lo) Free }
{
    Premise::Dist {
        name: constraint.name,
        from: constraint.from,
        to: constraint.to,
        lo: Bound::Finite(constraint.lo),
        hi: Bound::Free,
    }
}
