// The lines of a script with the timeline.
ghost use Rattle.std.specs.Prelude.{◌≡◌, [], true, false, IfOk, MatchResult};
ghost use Rattle.mode_session.specs.ModeSteps.{OwnStep};
ghost use Rattle.replies.specs.Timelines.{timeline_text};
ghost use Rattle.timeline.specs.Steps.{IsReady, IsReply, TimelineOwn};
ghost use Rattle.tmm_model.specs.declared.mode.Mode.TheVariants.{Timeline as TimelineMode};
ghost use Rattle.tmm_model.specs.Replies.{Refused, text_of};
ghost use Rattle.tmm_model.specs.Standing.{Standing, empty_list};
ghost use Rattle.tmm_model.specs.Transcript.{Step};
ghost use Rattle.tmm_session.specs.LongLines.{Step-long};

use crate::timeline;
use map_core::{Counter, MapCore, Opens};
use mode_session::Moded;
use replies::{reply_no, reply_timeline};
use std::alloc::Global;
use tmm_model::{Mode, ModeLine, NoMemory, Refusal, Seq, Stop, Timeline, Turn};
use tmm_session::answer_line;

/// Answers the lines of a script, and `timeline`.
#[derive(Drop)]
pub struct Dating<M> {
    /// The map.
    pub core: M,
    /// The decisions that it counts.
    pub counter: Counter,
}

impl<M: Opens + Drop> Dating<M> {
    /// The empty map, and no decision counted. Without memory it answers that.
    pub fn make(alloc: Global) -> Result<Dating<M>, NoMemory>
        ensures list { IfOk result (λ made. M.list made.core ≡ empty_list) }
        ensures ready { IfOk result (λ made. IsReady M.list M.pending made.core) }
    {
        let core = M::open(alloc)?;
        Ok(Dating {
            core,
            counter: Counter::zero(),
        })
    }
}

impl<M: MapCore + Drop> Moded for Dating<M> {
    ghost State = { Standing };

    ghost state = { λ s. M.list s.core };

    ghost ready = { λ s. IsReady M.list M.pending s.core };

    ghost MODE = { TimelineMode };

    ghost own = { TimelineOwn };

    ghost other = { Step };

    ghost long_lines = { Step-long };

    const MODE: Mode = Mode::Timeline;

    fn own(&mut self, alloc: Global, line: u64, _bytes: &[u8], form: &ModeLine) -> Turn {
        match form {
            ModeLine::Timeline => tell(alloc, line, &self.core),
            _ => unreachable!(),
        }
    }

    fn other(&mut self, alloc: Global, line: u64, bytes: &[u8]) -> Turn {
        answer_line(alloc, line, bytes, &mut self.core, &mut self.counter).turn()
    }
}

// Answers `timeline`.
fn tell<M: MapCore>(alloc: Global, line: u64, core: &M) -> Turn
    requires { IsReady M.list M.pending core.now }
    ensures { OwnStep TimelineOwn (M.list core.now) line [] ModeLine.Timeline result (M.list core.now) }
{
    match timeline(alloc, core) {
        Ok(found) => tell_found(alloc, line, &found),
        Err(Stop::Refused(refusal)) => refuse(alloc, line, &refusal),
        Err(Stop::NoMemory) => Turn::Memory,
    }
}

// Tells what was found.
fn tell_found(alloc: Global, line: u64, found: &Timeline) -> Turn
    ensures { IsReply (timeline_text line found.now) false result }
{
    reply(reply_timeline(alloc, line, found), false)
}

// Refuses a line.
fn refuse(alloc: Global, line: u64, refusal: &Refusal) -> Turn
    ensures { IsReply (text_of line (Refused refusal.now)) true result }
{
    reply(reply_no(alloc, line, refusal), true)
}

// The reply that these bytes are, where there was memory for them.
fn reply(bytes: Result<Seq<u8>, NoMemory>, refused: bool) -> Turn
    ensures { MatchResult bytes (λ text. result ≡ Turn.Reply text refused) (λ _. result ≡ Turn.Memory) }
{
    match bytes {
        Ok(bytes) => Turn::Reply { bytes, refused },
        Err(NoMemory) => Turn::Memory,
    }
}
