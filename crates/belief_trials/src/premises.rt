//! Premises with the network of their points, as lines of a script declare them.
ghost use Rattle.std.specs.Prelude.{◌≡◌, true, IfOk, OnOk};
ghost use Rattle.tmm_model.specs.Lines.{IsWellFormedEdit};
ghost use Rattle.tmm_model.specs.Standing.{empty_list};
ghost use Rattle.net_theory.specs.Fits.{IsNetOf};
ghost use Rattle.list_net.specs.Settled.{NothingPending};
ghost use Rattle.revisions.specs.Alike.{is_unread};
ghost use Rattle.belief_trials.specs.Lists.{SeeTheSame};

use dist_net::DistNet;
use list_net::add_premise;
use premise_list::Standing;
use std::alloc::Global;
use std::process::Abort;
use std::test::Fail;
use tmm_model::{Edit, Line, NoMemory, Premise, Refusal, Stop, Version};
use tmm_script::parse_line;

/// A list of premises, and its network.
#[derive(Drop)]
pub struct Premises {
    /// The list.
    pub list: Standing,
    /// Its points and their distances.
    pub net: DistNet,
}

impl Premises {
    /// The premises of these lines.
    pub fn of(alloc: Global, lines: &[&[u8]]) -> Result<Premises, Stop>
        ensures network { IfOk result (λ made. IsNetOf made.list.present made.net.present) }
        ensures settled { IfOk result (λ made. NothingPending made.list made.net) }
    {
        let mut list = Standing::make(alloc);
        let Ok(mut net) = bare_net(alloc) else {
            return Err(Stop::NoMemory);
        };
        add_all(alloc, &mut list, &mut net, lines)?;
        Ok(Premises { list, net })
    }

    /// Adds the premise of a line.
    pub fn add(&mut self, alloc: Global, line: &[u8]) -> Result<(), Stop>
        requires network { IsNetOf self.old.list.present self.old.net.present }
        requires settled { NothingPending self.old.list self.old.net }
        ensures network { OnOk result (IsNetOf self.new.list.present self.new.net.present) }
        ensures settled { OnOk result (NothingPending self.new.list self.new.net) }
    {
        let edit = edit_of(alloc, line)?;
        add(alloc, &mut self.list, &mut self.net, &edit)
    }

    /// Adds the constraint of a line, and sees the same occurrences.
    pub fn constrain(&mut self, alloc: Global, line: &[u8]) -> Result<(), Stop>
        requires network { IsNetOf self.old.list.present self.old.net.present }
        requires settled { NothingPending self.old.list self.old.net }
        ensures { OnOk result (SeeTheSame self.old.list.present self.old.net.present self.new.list.present self.new.net.present) }
    {
        let edit = edit_of(alloc, line)?;
        let Edit::Add(premise) = &edit else {
            return Err(Stop::Refused(Refusal::Form));
        };
        let Premise::Dist { .. } = premise else {
            return Err(Stop::Refused(Refusal::Form));
        };
        add(alloc, &mut self.list, &mut self.net, &edit)
    }
}

/// The network of a list without premises.
pub fn bare_net(alloc: Global) -> Result<DistNet, NoMemory>
    ensures network { IfOk result (λ net. IsNetOf empty_list net.present) }
    ensures settled { IfOk result (λ net. net.present ≡ net.committed) }
{
    let net = DistNet::make(alloc)?;
    net.invariants();
    Ok(net)
}

// Adds the premises of the lines in their order.
fn add_all(
    alloc: Global,
    list: &mut Standing,
    net: &mut DistNet,
    lines: &[&[u8]],
) -> Result<(), Stop>
    requires network { IsNetOf list.old.present net.old.present }
    requires settled { NothingPending list.old net.old }
    ensures network { OnOk result (IsNetOf list.new.present net.new.present) }
    ensures settled { OnOk result (NothingPending list.new net.new) }
{
    for line in lines {
        let edit = edit_of(alloc, line)?;
        add(alloc, list, net, &edit)?;
    }
    Ok(())
}

// The edit of a line that adds or erases.
fn edit_of(alloc: Global, line: &[u8]) -> Result<Edit, Stop>
    ensures { IfOk result IsWellFormedEdit }
{
    let Line::Change(edit) = parse_line(alloc, Version::One, line)? else {
        return Err(Stop::Refused(Refusal::Form));
    };
    Ok(edit)
}

// Adds a premise, where it is let through.
fn add(alloc: Global, list: &mut Standing, net: &mut DistNet, edit: &Edit) -> Result<(), Stop>
    requires well_formed { IsWellFormedEdit edit.now }
    requires network { IsNetOf list.old.present net.old.present }
    requires settled { NothingPending list.old net.old }
    ensures network { OnOk result (IsNetOf list.new.present net.new.present) }
    ensures settled { OnOk result (NothingPending list.new net.new) }
    ensures sees { OnOk result (is_unread list.old.present.premises edit.now ≡ true → SeeTheSame list.old.present net.old.present list.new.present net.new.present) }
{
    let Edit::Add(premise) = edit else {
        return Err(Stop::Refused(Refusal::Form));
    };
    if let Err(refusal) = list.check(edit) {
        return Err(Stop::Refused(refusal));
    }
    add_premise(alloc, list, net, premise)?;
    list.commit();
    net.commit();
    let _ = list.len();
    net.invariants();
    Ok(())
}

/// What was made of a list that is let through.
pub fn let_through<T>(rt: &impl Abort, answer: Result<T, Stop>) -> Result<T, Fail> {
    match answer {
        Ok(made) => Ok(made),
        Err(Stop::NoMemory) => Err(Fail::from(NoMemory)),
        Err(Stop::Refused(_)) => panic!(rt; "the premises or their map are refused"),
    }
}
