// What an edit makes of the nodes that it may have touched.
ghost use Rattle.std.specs.Prelude.{◌≡◌, ◌<◌, ◌<ℤ◌, ℕ, List, [], false, true, length, Some, IfOk, IfSome, OnOk, replicate};
ghost use Rattle.std.specs.List.{All, Contains, list_any};
ghost use Rattle.std.specs.Option.{is_some};
ghost use Rattle.tmm_model.specs.declared.premise.Edit.{Edit as AnEdit};
ghost use Rattle.tmm_model.specs.Standing.{Standing as AStanding};
ghost use Rattle.dist_net.specs.Net.{Net};
ghost use Rattle.projection.specs.Kinds.{IsCountIn};
ghost use Rattle.spots.specs.Forest.{Member, member, IsLive};
ghost use Rattle.spots.specs.OfLists.{IsForestOf};
ghost use Rattle.occ_tree.specs.OfLists.{IsTreeIn};
ghost use Rattle.occ_tree.specs.Places.{forest};
ghost use Rattle.occ_tree.specs.Standing.{Kept, present, early};
ghost use Rattle.occ_tree.specs.Tokens.{number_of};
ghost use Rattle.supports.specs.Behind.{IsClip};
ghost use Rattle.supports.specs.Edited.{IsEdited, old_forest};
ghost use Rattle.supports.specs.TimeMaps.{IsTimeMap};
ghost use Rattle.belief_list.specs.declared.kept_rows.KeptRow.{KeptRow as AKeptRow};
ghost use Rattle.belief_list.specs.KeptRows.{row_under, AreRowsOf, CoverTouched, AreDifferences};
ghost use Rattle.belief_list.specs.Told.{clip_of};
ghost use Rattle.belief_list.specs.Finding.{IsClipNow, IsNowUnder, mark_under, AreMarked, MarksStay, HaveDates, HaveDatesAsked, AreRising, IsFirstAfter, has_fact, AreTouched, IsAhead, IsUnrivalled, IsPastRivals, AreOthersKept, IsClassSettled, AreClassesSettled, AreFound};

use crate::by_number::kept_clip;
use crate::kept_rows::{Difference, KeptRow};
use occ_tree::Tree;
use premise_list::Standing;
use projection::{KindCount, weight_after, weight_of};
use spots::Spot;
use std::alloc::Global;
use supports::{TimeMap, class_clips};
use tmm_model::{Name, NoMemory, TokenRow};

/// The differences that an edit makes, given nodes and classes that are all it may have touched,
/// and what is kept of the nodes of the last commit, with a place for each present one. Only those
/// nodes are looked at, and tokens of those classes that one of them may clip, or clipped, or
/// whose fact premises of one list alone set against another one. Without memory it answers that.
pub fn differences(
    alloc: Global,
    map: &TimeMap<'_>,
    nodes: &[u32],
    classes: &[Name],
    kept: &[Option<KeptRow>],
) -> Result<Vec<Difference>, NoMemory>
    requires seen { IsTimeMap map.now }
    requires room { (x : ℕ) → IsLive (forest map.now.tree.now) x → x < length kept.now }
    requires kept { AreRowsOf map.now.standing.now.committed (old_forest map.now.tree.now) (row_under kept.now) }
    requires covered { CoverTouched map.now.standing.now map.now.net.now map.now.tree.now nodes.now classes.now }
    ensures made { IfOk result (λ made. (edit : AnEdit) → IsEdited map.now.standing.now map.now.net.now edit map.now.tree.now → AreDifferences map.now.standing.now map.now.net.now edit map.now.tree.now kept.now made.items) }
    ensures places { IfOk result (λ made. All (λ d. d.node < length kept.now) made.items) }
{
    // they tell the proof what holds of points that moved, and of the tokens of all classes
    let _ = map.net.moved();
    map.tree.have_tokens();
    let touched = touched_by(alloc, map.standing, map.tree, nodes, kept.len())?;
    let mut found = Found::make(alloc, kept.len(), nodes.len())?;
    for class in classes {
        tell_class(alloc, map, class, kept, &touched, &mut found)?;
    }
    let mut last = None;
    for x in nodes {
        tell_node(map.standing, map.tree, *x, kept, &mut found, &mut last)?;
    }
    Ok(found.differences)
}

// What an edit touched.
#[derive(Drop)]
struct Touched {
    // a mark for each number that it touched
    marks: Vec<bool>,
    // the dates of the tokens that it touched, rising
    dates: Vec<i64>,
    // the pairs of facts that contradict each other by one of both lists alone
    pairs: Vec<(Name, Name)>,
}

// What an edit touched, given the numbers that it did, among so many that have a place.
fn touched_by(
    alloc: Global,
    standing: &Standing,
    tree: &Tree,
    nodes: &[u32],
    places: usize,
) -> Result<Touched, NoMemory>
    ensures touched { IfOk result (AreTouched standing.now tree.now nodes.now) }
    ensures rising { IfOk result (λ touched. AreRising touched.dates.items) }
{
    Ok(Touched {
        marks: marked(alloc, nodes, places)?,
        dates: dates_asked(alloc, standing, tree, nodes)?,
        pairs: standing.changed_rivalries(alloc)?,
    })
}

// The dates of the tokens among these nodes, rising.
fn dates_of(alloc: Global, tree: &Tree, nodes: &[u32]) -> Result<Vec<i64>, NoMemory>
    ensures all { IfOk result (λ dates. HaveDates tree.now nodes.now dates.items) }
    ensures rising { IfOk result (λ dates. AreRising dates.items) }
{
    let mut dates = Vec::with_capacity(alloc, nodes.len())?;
    for x in nodes {
        if is_token(tree, *x) {
            dates.push_reserved(tree.early(*x));
        }
    }
    dates.sort_unstable();
    Ok(dates)
}

// The same, but none where no premise of either list says that facts contradict each other: then no
// date is asked for.
fn dates_asked(
    alloc: Global,
    standing: &Standing,
    tree: &Tree,
    nodes: &[u32],
) -> Result<Vec<i64>, NoMemory>
    ensures all { IfOk result (λ dates. HaveDatesAsked standing.now tree.now nodes.now dates.items) }
    ensures rising { IfOk result (λ dates. AreRising dates.items) }
{
    if says_none(standing) {
        return Ok(Vec::new(alloc));
    }
    dates_of(alloc, tree, nodes)
}

// Whether the number is of a node that is a token.
fn is_token(tree: &Tree, x: u32) -> bool
    ensures live { result ≡ true → IsLive (forest tree.now) x }
    ensures token { (m : Member) → member (forest tree.now) x ≡ Some m → result ≡ is_some m.class }
{
    tree.is_live(x) && tree.row(x).class.is_some()
}

// The first of some rising dates that is later than this one.
fn date_after(dates: &[i64], date: i64) -> Option<i64>
    requires { AreRising dates.now }
    ensures { IsFirstAfter dates.now date result }
{
    dates.get(dates.partition_point(|d| *d <= date)).copied()
}

// Whether one of the pairs has the fact.
fn is_paired(pairs: &[(Name, Name)], fact: Name) -> bool
    ensures { result ≡ list_any (has_fact fact) pairs.now }
{
    pairs.iter().any(|pair| pair.0 == fact || pair.1 == fact)
}

// Differences as they are found, with a mark for each number that was looked at.
#[derive(Drop)]
struct Found {
    marks: Vec<bool>,
    differences: Vec<Difference>,
}

impl Found {
    // No number was looked at yet, of so many that have a place. There is room for so many
    // differences.
    fn make(alloc: Global, places: usize, room: usize) -> Result<Found, NoMemory>
        ensures marks { IfOk result (λ found. found.marks.items ≡ replicate places false) }
        ensures none { IfOk result (λ found. found.differences.items ≡ []) }
    {
        Ok(Found {
            marks: Vec::from_elem(alloc, false, places)?,
            differences: Vec::with_capacity(alloc, room)?,
        })
    }

    // Whether the number was looked at, or has no place.
    fn is_marked(&self, x: u32) -> bool
        ensures { result ≡ mark_under self.now.marks.items x }
    {
        is_marked(&self.marks, x)
    }

    // Tells what is to be kept under a number, where it was not looked at. A row that stays is no
    // difference.
    fn tell(
        &mut self,
        kept: &[Option<KeptRow>],
        x: u32,
        now: Option<KeptRow>,
    ) -> Result<(), NoMemory>
        requires long { length self.old.marks.items ≡ length kept.now }
        ensures long { length self.new.marks.items ≡ length self.old.marks.items }
        ensures found { OnOk result ((s : AStanding) (net : Net) (tree : Kept) (classes : List (List ℕ)) → AreFound s net tree classes kept.now self.old.marks.items self.old.differences.items
            → IsNowUnder s net tree classes (row_under kept.now x) x now → AreFound s net tree classes kept.now self.new.marks.items self.new.differences.items) }
        ensures marked { OnOk result (mark_under self.new.marks.items x ≡ true) }
        ensures stay { OnOk result (MarksStay self.old.marks.items self.new.marks.items) }
    {
        if self.is_marked(x) {
            return Ok(());
        }
        let was = kept[x as usize];
        self.marks[x as usize] = true;
        if is_same(&was, &now) {
            return Ok(());
        }
        match self.differences.push(Difference { node: x, was, now }) {
            Ok(()) => Ok(()),
            Err(_) => Err(NoMemory),
        }
    }
}

// Whether the same is kept.
fn is_same(was: &Option<KeptRow>, now: &Option<KeptRow>) -> bool
    ensures { result ≡ true → was.now ≡ now.now }
{
    was == now
}

// Whether a number is marked, or has no place.
fn is_marked(marks: &[bool], x: u32) -> bool
    ensures { result ≡ mark_under marks.now x }
{
    marks.get(x as usize).copied().unwrap_or(true)
}

// Marks a number, where it has a place.
fn mark(marks: &mut Vec<bool>, x: u32)
    ensures marked { mark_under marks.new.items x ≡ true }
    ensures stay { MarksStay marks.old.items marks.new.items }
{
    if (x as usize) < marks.len() {
        marks[x as usize] = true;
    }
}

// Marks of these numbers, among so many that have a place.
fn marked(alloc: Global, nodes: &[u32], places: usize) -> Result<Vec<bool>, NoMemory>
    ensures { IfOk result (λ marks. AreMarked marks.items nodes.now) }
{
    let mut marks = Vec::from_elem(alloc, false, places)?;
    for x in nodes {
        mark(&mut marks, *x);
    }
    Ok(marks)
}

// Tells what is to be kept of the tokens of a class that may have another clip than before, or were
// touched, each with its clip found anew.
fn tell_class(
    alloc: Global,
    map: &TimeMap<'_>,
    class: &Name,
    kept: &[Option<KeptRow>],
    touched: &Touched,
    found: &mut Found,
) -> Result<(), NoMemory>
    requires seen { IsTimeMap map.now }
    requires rising { AreRising touched.now.dates.items }
    requires long { length found.old.marks.items ≡ length kept.now }
    ensures long { OnOk result (length found.new.marks.items ≡ length kept.now) }
    ensures found { OnOk result ((classes : List (List ℕ)) → AreFound map.now.standing.now.present map.now.net.now.present map.now.tree.now classes kept.now found.old.marks.items found.old.differences.items
        → AreFound map.now.standing.now.present map.now.net.now.present map.now.tree.now classes kept.now found.new.marks.items found.new.differences.items) }
    ensures settled { OnOk result ((nodes : List ℕ) → AreTouched map.now.standing.now map.now.tree.now nodes touched.now → IsClassSettled map.now.standing.now map.now.tree.now nodes kept.now found.new.marks.items class.now) }
    ensures stay { OnOk result (MarksStay found.old.marks.items found.new.marks.items) }
{
    let wanted = wanted_of(alloc, map.standing, map.tree, class, kept, touched)?;
    let clips = class_clips(alloc, map.standing, map.tree, map.net, class, &wanted)?;
    let rows = map.tree.tokens(class);
    for i in 0..rows.len() {
        if wanted[i] {
            tell_token(
                map.standing,
                map.tree,
                node_of(&rows[i]),
                clips[i],
                kept,
                found,
            )?;
        }
    }
    Ok(())
}

// Tells what is to be kept of a token with this clip.
fn tell_token(
    standing: &Standing,
    tree: &Tree,
    x: u32,
    clip: Option<u32>,
    kept: &[Option<KeptRow>],
    found: &mut Found,
) -> Result<(), NoMemory>
    requires seen { (net : Net) × IsForestOf standing.now.present net (forest tree.now) }
    requires token { (m : Member) × (member (forest tree.now) x ≡ Some m) × (class : List ℕ) × (m.class ≡ Some class) }
    requires live { IfSome clip (IsLive (forest tree.now)) }
    requires long { length found.old.marks.items ≡ length kept.now }
    ensures long { OnOk result (length found.new.marks.items ≡ length kept.now) }
    ensures found { OnOk result ((net : Net) (classes : List (List ℕ)) → IsClip standing.now.present net (forest tree.now) x clip → AreFound standing.now.present net tree.now classes kept.now found.old.marks.items found.old.differences.items
        → AreFound standing.now.present net tree.now classes kept.now found.new.marks.items found.new.differences.items) }
    ensures marked { OnOk result (mark_under found.new.marks.items x ≡ true) }
    ensures stay { OnOk result (MarksStay found.old.marks.items found.new.marks.items) }
{
    let now = KeptRow {
        early: tree.early(x),
        clip,
        weight: weight_of(standing, tree, x),
    };
    found.tell(kept, x, Some(now))
}

// Which tokens of a class are to be looked at, at their places: those that were touched, and those
// of which the clip was touched, or is not known to come before all touched ones behind the token,
// be they of the class or, where others contradict the fact, of any.
fn wanted_of(
    alloc: Global,
    standing: &Standing,
    tree: &Tree,
    class: &Name,
    kept: &[Option<KeptRow>],
    touched: &Touched,
) -> Result<Vec<bool>, NoMemory>
    requires dates { (net : Net) × IsTreeIn net tree.now }
    requires rising { AreRising touched.now.dates.items }
    ensures long { IfOk result (λ wanted. length wanted.items ≡ length ((present tree.now).tokens class.now)) }
    ensures others { IfOk result (λ wanted. (nodes : List ℕ) → AreTouched standing.now tree.now nodes touched.now → AreOthersKept standing.now tree.now nodes kept.now class.now wanted.items) }
{
    let rows = tree.tokens(class);
    let mut wanted = Vec::from_elem(alloc, true, rows.len())?;
    let plain = says_none(standing);
    // the date of the first token behind that was touched
    let mut next = None;
    for i in (0..rows.len()).rev() {
        wanted[i] = is_wanted(standing, plain, tree, kept, touched, &rows[i], &mut next);
    }
    Ok(wanted)
}

// Whether no premise of either list says that facts contradict each other.
fn says_none(standing: &Standing) -> bool
    ensures { result ≡ true → (f : List ℕ) → IsUnrivalled standing.now f }
{
    standing.rivalries() == 0 && standing.rivalries_before() == 0
}

// Whether a token is to be looked at, given the date of the first one behind it that was touched,
// which is its own from then on, if it was. Where no premise of either list says that facts
// contradict each other, it is not looked up what does.
fn is_wanted(
    standing: &Standing,
    plain: bool,
    tree: &Tree,
    kept: &[Option<KeptRow>],
    touched: &Touched,
    row: &TokenRow<Spot>,
    next: &mut Option<i64>,
) -> bool
    requires plain { plain ≡ true → (f : List ℕ) → IsUnrivalled standing.now f }
    requires live { IsLive (forest tree.now) (number_of row.now.spot) }
    requires rising { AreRising touched.now.dates.items }
    ensures touched { mark_under touched.now.marks.items (number_of row.now.spot) ≡ true → next.new ≡ Some (early (present tree.now) (number_of row.now.spot)) }
    ensures untouched { mark_under touched.now.marks.items (number_of row.now.spot) ≡ false → next.new ≡ next.old }
    ensures kept { result ≡ false → (mark_under touched.now.marks.items (number_of row.now.spot) ≡ false) × IsAhead kept.now touched.now.marks.items (clip_of (row_under kept.now (number_of row.now.spot))) next.old }
    ensures rivals { result ≡ false → IsPastRivals standing.now kept.now touched.now row.now.fact (clip_of (row_under kept.now (number_of row.now.spot))) (early (present tree.now) (number_of row.now.spot)) }
{
    let x = node_of(row);
    if is_marked(&touched.marks, x) {
        *next = Some(tree.early(x));
        return true;
    }
    let clip = kept_clip(kept, x);
    if !keeps_clip(kept, &touched.marks, clip, *next) {
        return true;
    }
    !plain && !is_past_rivals(standing, kept, touched, row.fact, clip, tree.early(x))
}

// Whether a token of the fact that has this date keeps what clips it, as far as premises say what
// contradicts the fact: they say of none that it does, and did not, or they say so of the same ones
// as before, and no touched token, whatever its fact, comes between the two.
fn is_past_rivals(
    standing: &Standing,
    kept: &[Option<KeptRow>],
    touched: &Touched,
    fact: Name,
    clip: Option<u32>,
    date: i64,
) -> bool
    requires rising { AreRising touched.now.dates.items }
    ensures { result ≡ true → IsPastRivals standing.now kept.now touched.now fact clip date }
{
    if !standing.has_or_had_rivals(fact) {
        return true;
    }
    if is_paired(&touched.pairs, fact) {
        return false;
    }
    let next = date_after(&touched.dates, date);
    keeps_clip(kept, &touched.marks, clip, next)
}

// Whether what clips a token was not touched, and has an earlier date than the first one behind the
// token that was.
fn keeps_clip(
    kept: &[Option<KeptRow>],
    touched: &[bool],
    clip: Option<u32>,
    next: Option<i64>,
) -> bool
    ensures { result ≡ true → IsAhead kept.now touched.now clip next }
{
    let Some(c) = clip else {
        return next.is_none();
    };
    if is_marked(touched, c) {
        return false;
    }
    match next {
        Some(date) => is_earlier(kept, c, date),
        None => true,
    }
}

// Whether a row is kept under a number with a date before this one.
fn is_earlier(kept: &[Option<KeptRow>], x: u32, date: i64) -> bool
    ensures { result ≡ true → (q : AKeptRow) × (row_under kept.now x ≡ Some q) × (q.early <ℤ date) }
{
    match kept.get(x as usize) {
        Some(Some(row)) => row.early < date,
        _ => false,
    }
}

// The number of the node at which a token begins.
fn node_of(row: &TokenRow<Spot>) -> u32
    ensures { result ≡ number_of row.now.spot }
{
    match row.spot {
        Spot::Node(x) => x,
        Spot::Declared(p) => u32::from(p),
    }
}

// Tells what is to be kept of a touched node, if it was not looked at, so that its class is none
// that was touched.
fn tell_node(
    standing: &Standing,
    tree: &Tree,
    x: u32,
    kept: &[Option<KeptRow>],
    found: &mut Found,
    last: &mut Option<KindCount>,
) -> Result<(), NoMemory>
    requires seen { (net : Net) × IsForestOf standing.now.present net (forest tree.now) }
    requires long { length found.old.marks.items ≡ length kept.now }
    requires last { IfSome last.old (IsCountIn standing.now.present) }
    ensures long { OnOk result (length found.new.marks.items ≡ length kept.now) }
    ensures found { OnOk result ((net : Net) (nodes : List ℕ) (classes : List (List ℕ)) → Contains nodes x → AreClassesSettled standing.now tree.now nodes kept.now found.old.marks.items classes → AreFound standing.now.present net tree.now classes kept.now found.old.marks.items found.old.differences.items
        → AreFound standing.now.present net tree.now classes kept.now found.new.marks.items found.new.differences.items) }
    ensures marked { OnOk result (mark_under found.new.marks.items x ≡ true) }
    ensures stay { OnOk result (MarksStay found.old.marks.items found.new.marks.items) }
    ensures last { IfSome last.new (IsCountIn standing.now.present) }
{
    if found.is_marked(x) {
        return Ok(());
    }
    let now = row_now(standing, tree, &kept[x as usize], x, last);
    found.tell(kept, x, now)
}

// What is to be kept under a number, given what was kept: nothing where no node is, and else a row
// with the clip that was.
fn row_now(
    standing: &Standing,
    tree: &Tree,
    was: &Option<KeptRow>,
    x: u32,
    last: &mut Option<KindCount>,
) -> Option<KeptRow>
    requires seen { (net : Net) × IsForestOf standing.now.present net (forest tree.now) }
    requires last { IfSome last.old (IsCountIn standing.now.present) }
    ensures now { (net : Net) (classes : List (List ℕ)) → ((m : Member) (class : List ℕ) → member (forest tree.now) x ≡ Some m → m.class ≡ Some class → Contains classes class → ⊥)
        → IsNowUnder standing.now.present net tree.now classes was.now x result }
    ensures last { IfSome last.new (IsCountIn standing.now.present) }
{
    if !tree.is_live(x) {
        return None;
    }
    Some(KeptRow {
        early: tree.early(x),
        clip: clip_before(tree, was, x),
        weight: weight_after(standing, tree, x, last),
    })
}

// What clipped the token that the node is, none for an event.
fn clip_before(tree: &Tree, was: &Option<KeptRow>, x: u32) -> Option<u32>
    requires live { IsLive (forest tree.now) x }
    ensures { (s : AStanding) (net : Net) (classes : List (List ℕ)) (m : Member) → member (forest tree.now) x ≡ Some m → ((class : List ℕ) → m.class ≡ Some class → Contains classes class → ⊥)
        → IsClipNow s net (forest tree.now) classes was.now x m.class result }
{
    if tree.row(x).class.is_none() {
        return None;
    }
    match was {
        Some(row) => row.clip,
        None => None,
    }
}
