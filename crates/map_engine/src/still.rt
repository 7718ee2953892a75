// Which edits leave beliefs as they are.
ghost use Rattle.std.specs.Prelude.{◌≡◌, ◌&&◌, None, true, slice_index_or};
ghost use Rattle.tmm_model.specs.Standing.{points_in};
ghost use Rattle.net_theory.specs.Fits.{IsNetOf};
ghost use Rattle.net_theory.specs.KeptNumbers.{PointsKeepNumbers};
ghost use Rattle.revisions.specs.Alike.{is_read, is_unread, SayAlike, AreAlike};
ghost use Rattle.revisions.specs.Ruling.{is_ruling};
ghost use Rattle.map_engine.specs.Still.{occurs_in, is_anchor, is_elsewhere, are_elsewhere};

use dist_net::DistNet;
use premise_list::Standing;
use tmm_model::{Edit, Name, PointName, Premise};

// Whether the edit adds a premise that beliefs do not read, or retracts one, or opens a version.
pub(crate) fn is_unread(standing: &Standing, edit: &Edit) -> bool
    ensures { result ≡ is_unread standing.now.present.premises edit.now }
{
    match edit {
        Edit::Add(premise) => !is_read(premise),
        Edit::Erase(name) => match standing.get(*name) {
            Some(premise) => !is_read(premise),
            None => false,
        },
        Edit::Horizon(_) => false,
        Edit::Upgrade => true,
    }
}

// Whether the edit may change which rules are on a kind: it adds a rule, or retracts a rule or what
// rules mention.
pub(crate) fn is_ruling(standing: &Standing, edit: &Edit) -> bool
    ensures { result ≡ is_ruling standing.now.present.premises edit.now }
{
    let erased = match edit {
        Edit::Add(premise) => return matches!(premise, Premise::Rule { .. }),
        Edit::Erase(name) => standing.get(*name),
        Edit::Horizon(_) | Edit::Upgrade => None,
    };
    matches!(
        erased,
        Some(Premise::Rule { .. } | Premise::Kind { .. } | Premise::Class { .. })
    )
}

// Whether beliefs read the premise itself. Of points and constraints they know distances alone.
fn is_read(premise: &Premise) -> bool
    ensures { result ≡ is_read premise.now }
{
    !matches!(
        premise,
        Premise::Point { .. } | Premise::Dist { .. } | Premise::Protect { .. }
    )
}

// Whether the list that a pending edit leaves is one of which the same is believed as of that of
// the last commit. `unread` tells that the edit added or retracted nothing that beliefs read; then
// it is still where no point moved at which something that is declared to occur begins or ends. It
// looks at the points that moved alone.
pub(crate) fn is_still(standing: &Standing, net: &DistNet, unread: bool) -> bool
    requires old_network { IsNetOf standing.now.committed net.now.committed }
    requires network { IsNetOf standing.now.present net.now.present }
    requires numbers { PointsKeepNumbers (points_in standing.now.present.premises) net.now.committed.names net.now.present.names }
    requires unread { unread ≡ true → SayAlike standing.now.committed standing.now.present }
    ensures exact { result ≡ (unread && are_elsewhere standing.now.present.premises net.now.present.names net.now.moved) }
    ensures alike { result ≡ true → AreAlike standing.now.committed standing.now.present }
{
    let moved = net.moved();
    unread && are_elsewhere(standing, net, moved)
}

// Whether none of the numbers is that of `start`, or of a point at which something that is declared
// to occur begins or ends.
fn are_elsewhere(standing: &Standing, net: &DistNet, numbers: &[u16]) -> bool
    ensures { result ≡ are_elsewhere standing.now.present.premises net.now.present.names numbers.now }
{
    numbers
        .iter()
        .all(|number| is_elsewhere(standing, net, *number))
}

// Whether the number is of no such point.
fn is_elsewhere(standing: &Standing, net: &DistNet, number: u16) -> bool
    ensures { result ≡ is_elsewhere standing.now.present.premises (slice_index_or net.now.present.names number None) }
{
    match net.name_of(number) {
        Some(point) => !is_anchor(standing, point),
        None => true,
    }
}

// Whether the point is `start`, or something that is declared to occur begins or ends there.
fn is_anchor(standing: &Standing, point: PointName) -> bool
    ensures { result ≡ is_anchor standing.now.present.premises point }
{
    match point {
        PointName::Start => true,
        PointName::Begin(name) | PointName::End(name) => occurs(standing, name),
    }
}

// Whether an event, a token or a span of this name is declared.
fn occurs(standing: &Standing, name: Name) -> bool
    ensures { result ≡ occurs_in standing.now.present.premises name }
{
    matches!(
        standing.get(name),
        Some(Premise::Event { .. } | Premise::Token { .. } | Premise::Span { .. })
    )
}
