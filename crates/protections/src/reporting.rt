// The broken protections of a map.
ghost use Rattle.std.specs.Prelude.{◌≡◌, map as mapped, IfOk};
ghost use Rattle.std.specs.Option.{option_map};
ghost use Rattle.std.specs.List.{Contains};
ghost use Rattle.tmm_model.specs.Answers.{broken, reports, report_of};
ghost use Rattle.tmm_model.specs.Maps.{built};
ghost use Rattle.spots.specs.OfLists.{IsForestOf, HasOccurrences};
ghost use Rattle.occ_tree.specs.OfLists.{IsTreeOf};
ghost use Rattle.occ_tree.specs.Places.{forest};
ghost use Rattle.supports.specs.TimeMaps.{IsTimeMap};

use crate::lists::push_some;
use dist_net::DistNet;
use list_net::number_of;
use occ_tree::Tree;
use premise_list::Standing;
use spots::Spot;
use std::alloc::Global;
use supports::TimeMap;
use tmm_model::{Answer, NoMemory, Premise, Report, Seq};
use tt_query::ask;

/// The broken protections, in the order of premises, each with its answer.
pub fn report(
    alloc: Global,
    standing: &Standing,
    tree: &Tree,
    net: &DistNet,
) -> Result<Seq<Report>, NoMemory>
    requires seen { IsTreeOf standing.now.present net.now.present tree.now }
    requires holds { HasOccurrences (built standing.now.present).believed (forest tree.now) }
    ensures { IfOk result (λ found. mapped report_of found.items ≡ reports (built standing.now.present)) }
{
    let map = TimeMap {
        standing,
        tree,
        net,
    };
    all_broken(alloc, &map)
}

// The reports of all premises that are broken protections, in the order of premises.
fn all_broken(alloc: Global, map: &TimeMap<'_>) -> Result<Seq<Report>, NoMemory>
    requires seen { IsTimeMap map.now }
    requires holds { HasOccurrences (built map.now.standing.now.present).believed (forest map.now.tree.now) }
    ensures { IfOk result (λ found. mapped report_of found.items ≡ reports (built map.now.standing.now.present)) }
{
    let mut found = Seq::make(alloc);
    for i in 0..map.standing.len() {
        match map.standing.at(i) {
            Some(premise) => push_some(&mut found, broken(alloc, map, premise)?)?,
            None => unreachable!(),
        }
    }
    Ok(found)
}

// The report of a premise that is a broken protection.
pub(crate) fn broken(
    alloc: Global,
    map: &TimeMap<'_>,
    premise: &Premise,
) -> Result<Option<Report>, NoMemory>
    requires seen { IsTimeMap map.now }
    requires holds { HasOccurrences (built map.now.standing.now.present).believed (forest map.now.tree.now) }
    requires stands { Contains map.now.standing.now.present.premises premise.now }
    ensures { IfOk result (λ found. option_map report_of found ≡ broken (built map.now.standing.now.present) premise.now) }
{
    match premise {
        Premise::Protect {
            name,
            fact,
            from,
            to,
        } => {
            let first = Spot::Declared(number_of(map.net, *from));
            let last = Spot::Declared(number_of(map.net, *to));
            match ask(alloc, map.standing, map.tree, map.net, *fact, first, last) {
                Ok(Answer::Yes(_)) => Ok(None),
                Ok(answer) => Ok(Some(Report {
                    name: *name,
                    answer,
                })),
                Err(_) => Err(NoMemory),
            }
        }
        _ => Ok(None),
    }
}
