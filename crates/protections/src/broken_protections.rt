// The broken protections of a map, found by their names.
ghost use Rattle.std.specs.Prelude.{◌≡◌, ◌<◌, ◌≤◌, ◌+◌, ℕ, List, None, map, is_some, if◌then◌else◌, IsSome, IfOk, OnOk};
ghost use Rattle.tmm_model.specs.Standing.{name_of};
ghost use Rattle.std.specs.Option.{option_map};
ghost use Rattle.tmm_model.specs.Answers.{broken, reports, report_of};
ghost use Rattle.tmm_model.specs.Maps.{built};
ghost use Rattle.list_theory.specs.WellNamed.{IsWellNamed};
ghost use Rattle.indexmap.specs.IndexMap.{spare};
ghost use Rattle.protections.specs.Found.{AreFound, found_in, with_report, without, with_all, after_review, HasRoomFor};

use crate::copies::copy;
use crate::lists::push_some;
use crate::review::{Review, Reviewed};
use indexmap::IndexMap;
use premise_list::Standing;
use std::alloc::Global;
use tmm_model::{Name, NoMemory, Premise, Report, Seq};

/// The broken protections of a map, each under its name.
#[derive(Drop)]
pub struct BrokenProtections {
    reports: IndexMap<Name, Report>,
}

impl BrokenProtections {
    /// None at all. It takes no memory.
    pub fn make(alloc: Global) -> BrokenProtections
        ensures { (name : List ℕ) → found_in result name ≡ None }
    {
        BrokenProtections {
            reports: IndexMap::new(alloc),
        }
    }

    /// The same once more, with memory of its own.
    pub fn copy(&self, alloc: Global) -> Result<BrokenProtections, NoMemory>
        ensures { IfOk result (λ made. found_in made ≡ found_in self.now) }
    {
        let count = self.reports.len();
        let mut made = BrokenProtections {
            reports: IndexMap::with_capacity(alloc, count)?,
        };
        for i in (0..count).rev() {
            if let Some((name, report)) = self.reports.get_index(i) {
                made.put(*name, Some(copy(alloc, report)?));
            }
        }
        Ok(made)
    }

    /// Whether the protection of this name is broken.
    pub fn has(&self, name: Name) -> bool
        ensures { result ≡ is_some (found_in self.now name) }
    {
        self.reports.get(&name).is_some()
    }

    /// The broken protections of the standing list, in the order of premises, once more.
    pub fn listed(&self, alloc: Global, standing: &Standing) -> Result<Seq<Report>, NoMemory>
        requires found { AreFound (reports (built standing.now.present)) (found_in self.now) }
        requires named { IsWellNamed standing.now.present.premises }
        ensures { IfOk result (λ found. map report_of found.items ≡ reports (built standing.now.present)) }
    {
        let mut found = Seq::make(alloc);
        for i in 0..standing.len() {
            match standing.at(i) {
                Some(premise) => push_some(&mut found, self.report_of(alloc, premise)?)?,
                None => unreachable!(),
            }
        }
        Ok(found)
    }

    // The report under the name of a premise.
    fn report_of(&self, alloc: Global, premise: &Premise) -> Result<Option<Report>, NoMemory>
        ensures { IfOk result (λ found. option_map report_of found ≡ found_in self.now (name_of premise.now)) }
    {
        match self.reports.get(&premise.name()) {
            Some(report) => Ok(Some(copy(alloc, report)?)),
            None => Ok(None),
        }
    }

    /// Makes room for what an edit makes of them. They stay as they are.
    pub fn reserve(&mut self, review: &Review) -> Result<(), NoMemory>
        ensures same { found_in self.new ≡ found_in self.old }
        ensures room { OnOk result (HasRoomFor self.new review.now) }
    {
        self.reports.reserve(review.reviewed.len())?;
        Ok(())
    }

    /// Takes over what an edit makes of them. It takes no memory.
    pub fn take_over(&mut self, review: Review)
        requires { HasRoomFor self.old review }
        ensures { found_in self.new ≡ after_review (found_in self.old) review }
    {
        let Review { erased, reviewed } = review;
        for name in &erased {
            self.put(*name, None);
        }
        for Reviewed { name, report, .. } in reviewed {
            self.put(name, report);
        }
    }

    // Puts what is reported under a name in the place of what was there. It takes no memory.
    fn put(&mut self, name: Name, report: Option<Report>)
        requires { IsSome report → 0 < spare self.old.reports }
        ensures found { found_in self.new ≡ with_report (found_in self.old) name (option_map report_of report) }
        ensures room { spare self.old.reports ≤ spare self.new.reports + (if is_some report then 1 else 0) }
    {
        match report {
            Some(report) => {
                let _old = self.reports.insert(name, report);
            }
            None => {
                let _old = self.reports.swap_remove(&name);
            }
        }
    }
}
