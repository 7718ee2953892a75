// What an edit makes of the broken protections, and what is told of it.
ghost use Rattle.std.specs.Prelude.{◌≡◌, [], map, IfOk};
ghost use Rattle.std.specs.Option.{option_map};
ghost use Rattle.tmm_model.specs.Answers.{reports, report_of};
ghost use Rattle.tmm_model.specs.Maps.{TimeMap};
ghost use Rattle.protections.specs.Found.{Found, AreFound};
ghost use Rattle.protections.specs.Reviews.{news, news_of, mends, mends_of, IsReviewOf};

use crate::copies::copy;
use crate::lists::push_some;
use std::alloc::Global;
use tmm_model::{Name, NoMemory, Report, Seq};

/// A protection that was looked at again: whether it was broken before the edit, and its report if
/// it is broken after it.
#[derive(Drop)]
pub struct Reviewed {
    pub(crate) name: Name,
    pub(crate) was_broken: bool,
    pub(crate) report: Option<Report>,
}

/// What an edit makes of the broken protections. Those that are not named here are broken as
/// before, or not broken as before.
#[derive(Drop)]
pub struct Review {
    // the names of those broken before that stand no more
    pub(crate) erased: Vec<Name>,
    // those that stand and were looked at again, in the order of premises
    pub(crate) reviewed: Vec<Reviewed>,
}

impl Review {
    /// Of an edit before and after which no protection is broken. It takes no memory.
    pub fn none(alloc: Global) -> Review
        ensures { (old new : TimeMap) (found : Found) → AreFound (reports old) found → reports old ≡ [] → reports new ≡ [] → IsReviewOf old new found result }
    {
        Review {
            erased: Vec::new(alloc),
            reviewed: Vec::new(alloc),
        }
    }

    /// The protections that are newly broken, and the names of those that stand and are broken no
    /// longer, both in the order of premises.
    pub fn told(&self, alloc: Global) -> Result<(Seq<Report>, Seq<Name>), NoMemory>
        ensures { IfOk result (λ told. (map report_of told.0.items ≡ news self.now.reviewed.items) × (told.1.items ≡ mends self.now.reviewed.items)) }
    {
        let reviewed = self.reviewed.as_slice();
        let broken = newly_broken(alloc, reviewed)?;
        let mended = mended(alloc, reviewed)?;
        Ok((broken, mended))
    }
}

fn newly_broken(alloc: Global, reviewed: &[Reviewed]) -> Result<Seq<Report>, NoMemory>
    ensures { IfOk result (λ found. map report_of found.items ≡ news reviewed.now) }
{
    let mut found = Seq::make(alloc);
    for one in reviewed {
        push_some(&mut found, new_report(alloc, one)?)?;
    }
    Ok(found)
}

// The report of a protection that was not broken before.
fn new_report(alloc: Global, one: &Reviewed) -> Result<Option<Report>, NoMemory>
    ensures { IfOk result (λ found. option_map report_of found ≡ news_of one.now) }
{
    match &one.report {
        Some(report) if !one.was_broken => Ok(Some(copy(alloc, report)?)),
        _ => Ok(None),
    }
}

fn mended(alloc: Global, reviewed: &[Reviewed]) -> Result<Seq<Name>, NoMemory>
    ensures { IfOk result (λ found. found.items ≡ mends reviewed.now) }
{
    let mut found = Seq::make(alloc);
    for one in reviewed {
        push_some(&mut found, mended_name(one))?;
    }
    Ok(found)
}

// The name of a protection that was broken before, and is not now.
fn mended_name(one: &Reviewed) -> Option<Name>
    ensures { result ≡ mends_of one.now }
{
    if one.was_broken && one.report.is_none() {
        Some(one.name)
    } else {
        None
    }
}
