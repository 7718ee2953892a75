// The lines of a script with suppositions.
ghost use Rattle.std.specs.Prelude.{◌≡◌, [], false, IfOk};
ghost use Rattle.mode_session.specs.ModeSteps.{OwnStep};
ghost use Rattle.suppose.specs.Worlds.{World, first_world, SupposeOwn, TopStep};
ghost use Rattle.suppose.specs.Stacks.{world_of, IsSettled};
ghost use Rattle.suppose.specs.LongLines.{TopStep-long};
ghost use Rattle.suppose.specs.Refusals.{IsRefused};
ghost use Rattle.tmm_model.specs.declared.mode.Mode.TheVariants.{Suppose as SupposeMode};

use crate::stack::{NoneStands, Stack, StackStop};
use map_core::{Copies, Counter, Opens};
use mode_session::Moded;
use replies::{reply_mode_no, reply_mode_ok};
use std::alloc::Global;
use tmm_model::{Mode, ModeCause, ModeLine, NoMemory, Seq, Turn};
use tmm_session::answer_line;

/// Answers the lines of a script with suppositions.
#[derive(Drop)]
pub struct Supposing<M> {
    /// The maps.
    pub stack: Stack<M>,
    /// The decisions that they count.
    pub counter: Counter,
}

impl<M: Opens + Drop> Supposing<M> {
    /// The empty map, and no decision counted. Without memory it answers that.
    pub fn make(alloc: Global) -> Result<Supposing<M>, NoMemory>
        ensures world { IfOk result (λ made. world_of M.list made.stack ≡ first_world) }
        ensures settled { IfOk result (λ made. IsSettled M.pending made.stack) }
    {
        let stack = Stack::make(alloc)?;
        Ok(Supposing {
            stack,
            counter: Counter::zero(),
        })
    }
}

impl<M: Copies + Drop> Moded for Supposing<M> {
    ghost State = { World };

    ghost state = { λ s. world_of M.list s.stack };

    ghost ready = { λ s. IsSettled M.pending s.stack };

    ghost MODE = { SupposeMode };

    ghost own = { SupposeOwn };

    ghost other = { TopStep };

    ghost long_lines = { TopStep-long };

    const MODE: Mode = Mode::Suppose;

    fn own(&mut self, alloc: Global, line: u64, _bytes: &[u8], form: &ModeLine) -> Turn {
        match form {
            ModeLine::Suppose => self.suppose(alloc, line),
            ModeLine::Keep => self.keep(alloc, line),
            ModeLine::Drop => self.drop_top(alloc, line),
            _ => unreachable!(),
        }
    }

    fn other(&mut self, alloc: Global, line: u64, bytes: &[u8]) -> Turn {
        answer_line(alloc, line, bytes, &mut self.stack.top, &mut self.counter).turn()
    }
}

// Of each line of the mode's own the reply is made before the stack is changed, so that want of
// memory leaves all as it was.
impl<M: Copies + Drop> Supposing<M> {
    // Begins a supposition.
    fn suppose(&mut self, alloc: Global, line: u64) -> Turn
        requires { IsSettled M.pending self.old.stack }
        ensures answers { OwnStep SupposeOwn (world_of M.list self.old.stack) line [] ModeLine.Suppose result (world_of M.list self.new.stack) }
        ensures settled { IsSettled M.pending self.new.stack }
    {
        let Ok(done) = reply_mode_ok(alloc, line) else {
            return Turn::Memory;
        };
        match self.stack.suppose(alloc) {
            Ok(()) => accept(done),
            Err(StackStop::Full) => refuse(alloc, line, ModeCause::LimitSuppose),
            Err(StackStop::NoMemory) => Turn::Memory,
        }
    }

    // Takes a supposition over.
    fn keep(&mut self, alloc: Global, line: u64) -> Turn
        requires { IsSettled M.pending self.old.stack }
        ensures answers { OwnStep SupposeOwn (world_of M.list self.old.stack) line [] ModeLine.Keep result (world_of M.list self.new.stack) }
        ensures settled { IsSettled M.pending self.new.stack }
    {
        let Ok(done) = reply_mode_ok(alloc, line) else {
            return Turn::Memory;
        };
        match self.stack.keep() {
            Ok(()) => accept(done),
            Err(NoneStands) => refuse(alloc, line, ModeCause::Suppose),
        }
    }

    // Gives a supposition up.
    fn drop_top(&mut self, alloc: Global, line: u64) -> Turn
        requires { IsSettled M.pending self.old.stack }
        ensures answers { OwnStep SupposeOwn (world_of M.list self.old.stack) line [] ModeLine.Drop result (world_of M.list self.new.stack) }
        ensures settled { IsSettled M.pending self.new.stack }
    {
        let Ok(done) = reply_mode_ok(alloc, line) else {
            return Turn::Memory;
        };
        match self.stack.drop_top() {
            Ok(()) => accept(done),
            Err(NoneStands) => refuse(alloc, line, ModeCause::Suppose),
        }
    }
}

// The reply that a line is done.
fn accept(done: Seq<u8>) -> Turn
    ensures { result ≡ Turn.Reply done false }
{
    Turn::Reply {
        bytes: done,
        refused: false,
    }
}

// Refuses a line.
fn refuse(alloc: Global, line: u64, cause: ModeCause) -> Turn
    ensures { IsRefused line cause result }
{
    match reply_mode_no(alloc, line, cause) {
        Ok(bytes) => Turn::Reply {
            bytes,
            refused: true,
        },
        Err(NoMemory) => Turn::Memory,
    }
}
