//! The timeline of a map: what happens where each point comes at its earliest date and the rules
//! are played through on these dates, day by day.
//!
//! It stands on `map_core`, over any map. `specs/Days.antt` defines what a day brings and what
//! holds on it; `timeline` finds the same with the occurrences of each day in a list of its own.
//! `Dating` answers the lines of a script for a `ModeSession`: `timeline` by this, and every other
//! line by `tmm_session`. `TimelineStep` in `specs/Steps.antt` is the step of its transcript.
//! The functions of `laws` ensure what the definition is worth.
#![tactic(auto)]

mod calendar;
mod dates;
mod entry;
mod holding;
mod kinds;
mod laws;
mod listing;
mod mode;
mod playing;
mod roots;
mod row;
mod rule;
mod until;

ghost use Rattle.std.specs.Prelude.{◌≡◌, ◌≤◌, suc, None, IfOk, IfErr, OnOk};
ghost use Rattle.tmm_model.specs.Answers.{most_size};
ghost use Rattle.tmm_model.specs.Maps.{built};
ghost use Rattle.belief_theory.specs.KeptLists.{IsKept};
ghost use Rattle.timeline.specs.Calendars.{IsBefore};
ghost use Rattle.timeline.specs.Days.{played_size};
ghost use Rattle.timeline.specs.Told.{IsTimeline, StopsTimeline};

use crate::calendar::Calendar;
use crate::dates::point_dates;
use crate::kinds::RulesByKind;
use crate::listing::listed;
use crate::playing::play;
use crate::roots::declared;
pub use laws::{dates_satisfy_constraints, played_is_believed};
use map_core::MapCore;
pub use mode::Dating;
use std::alloc::Global;
use tmm_model::{Stop, Timeline};

/// What happens where each point comes at its earliest date. Where that is of more than 100,000 in
/// size it is refused; without memory it answers that.
pub fn timeline<M: MapCore>(alloc: Global, core: &M) -> Result<Timeline, Stop>
    requires idle { M.pending core.now ≡ None }
    requires kept { IsKept (M.list core.now) }
    ensures told { IfOk result (IsTimeline (built (M.list core.now))) }
    ensures small { OnOk result (played_size (built (M.list core.now)) ≤ most_size) }
    ensures stops { IfErr result (StopsTimeline (built (M.list core.now))) }
{
    let rules = RulesByKind::of(alloc, core.standing())?;
    let mut calendar = declared(alloc, core, &rules)?;
    play(alloc, core.standing(), &rules, &mut calendar)?;
    told(alloc, core, &calendar)
}

// The timeline of what was played.
fn told<M: MapCore>(alloc: Global, core: &M, calendar: &Calendar) -> Result<Timeline, Stop>
    requires idle { M.pending core.now ≡ None }
    requires kept { IsKept (M.list core.now) }
    requires played { IsBefore (built (M.list core.now)) (suc (M.list core.now).horizon) calendar.now }
    ensures told { IfOk result (IsTimeline (built (M.list core.now))) }
    ensures stops { IfErr result (StopsTimeline (built (M.list core.now))) }
{
    let points = point_dates(alloc, core)?;
    let rows = listed(alloc, core.standing(), calendar)?;
    Ok(Timeline { points, rows })
}
