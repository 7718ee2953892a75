// The lines of a script that asks for repairs.
ghost use Rattle.std.specs.Prelude.{◌≡◌, [], true, false, None, IfOk};
ghost use Rattle.replies.specs.Fixes.{repairs_text};
ghost use Rattle.mode_session.specs.ModeSteps.{OwnStep};
ghost use Rattle.repairs.specs.RepairsSteps.{RepairsOwn};
ghost use Rattle.repairs.specs.Sessions.{IsReady, IsTold};
ghost use Rattle.tmm_model.specs.declared.mode.Mode.TheVariants.{Repairs as Mending};
ghost use Rattle.tmm_model.specs.Replies.{Refused, text_of};
ghost use Rattle.tmm_model.specs.Standing.{Standing, empty_list};
ghost use Rattle.tmm_model.specs.Transcript.{Step};
ghost use Rattle.tmm_session.specs.LongLines.{Step-long};

use crate::candidates::repairs;
use map_core::{Copies, Counter, Opens};
use mode_session::Moded;
use replies::{reply_no, reply_repairs};
use std::alloc::Global;
use tmm_model::{Fix, Mode, ModeLine, Name, NoMemory, Refusal, Stop, Turn};
use tmm_session::answer_line;

/// Answers the lines of a script that asks for repairs.
#[derive(Drop)]
pub struct Repairing<M> {
    /// The map.
    pub core: M,
    /// The decisions that it counts; candidates that are tried count none.
    pub counter: Counter,
}

impl<M: Opens + Drop> Repairing<M> {
    /// The empty map, and no decision counted. Without memory it answers that.
    pub fn make(alloc: Global) -> Result<Repairing<M>, NoMemory>
        ensures list { IfOk result (λ made. M.list made.core ≡ empty_list) }
        ensures idle { IfOk result (λ made. M.pending made.core ≡ None) }
    {
        let core = M::open(alloc)?;
        Ok(Repairing {
            core,
            counter: Counter::zero(),
        })
    }
}

impl<M: Copies + Drop> Moded for Repairing<M> {
    ghost State = { Standing };

    ghost state = { λ s. M.list s.core };

    ghost ready = { λ s. IsReady (M.list s.core) (M.pending s.core) };

    ghost MODE = { Mending };

    ghost own = { RepairsOwn };

    ghost other = { Step };

    ghost long_lines = { Step-long };

    const MODE: Mode = Mode::Repairs;

    fn own(&mut self, alloc: Global, line: u64, _bytes: &[u8], form: &ModeLine) -> Turn {
        match form {
            ModeLine::Repairs(name) => self.tell_repairs(alloc, line, *name),
            _ => unreachable!(),
        }
    }

    fn other(&mut self, alloc: Global, line: u64, bytes: &[u8]) -> Turn {
        answer_line(alloc, line, bytes, &mut self.core, &mut self.counter).turn()
    }
}

impl<M: Copies + Drop> Repairing<M> {
    // Tells the repairs of the protection of this name.
    fn tell_repairs(&mut self, alloc: Global, line: u64, name: Name) -> Turn
        requires { IsReady (M.list self.old.core) (M.pending self.old.core) }
        ensures answers { OwnStep RepairsOwn (M.list self.old.core) line [] (ModeLine.Repairs name) result (M.list self.new.core) }
        ensures ready { IsReady (M.list self.new.core) (M.pending self.new.core) }
    {
        match repairs(alloc, &mut self.core, name) {
            Ok(fixes) => tell_fixes(alloc, line, fixes.items()),
            Err(Stop::Refused(refusal)) => refuse(alloc, line, &refusal),
            Err(Stop::NoMemory) => Turn::Memory,
        }
    }
}

// The reply that lists these changes.
fn tell_fixes(alloc: Global, line: u64, fixes: &[Fix]) -> Turn
    ensures { IsTold (repairs_text line fixes.now) false result }
{
    match reply_repairs(alloc, line, fixes) {
        Ok(bytes) => Turn::Reply {
            bytes,
            refused: false,
        },
        Err(NoMemory) => Turn::Memory,
    }
}

// Refuses a line.
fn refuse(alloc: Global, line: u64, refusal: &Refusal) -> Turn
    ensures { IsTold (text_of line (Refused refusal.now)) true result }
{
    match reply_no(alloc, line, refusal) {
        Ok(bytes) => Turn::Reply {
            bytes,
            refused: true,
        },
        Err(NoMemory) => Turn::Memory,
    }
}
