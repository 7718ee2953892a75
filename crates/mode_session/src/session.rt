// The lines of a mode, one after the other.
ghost use Rattle.std.specs.Prelude.{◌≡◌};
ghost use Rattle.mode_session.specs.ModeSteps.{own_line, ModeStep};
ghost use Rattle.mode_session.specs.LongLines.{ModeStep-long};

use crate::moded::Moded;
use std::alloc::Global;
use tmm_drive::Lines;
use tmm_model::{LONGEST_LINE, Mode, ModeLine, Turn};
use tmm_script::mode_line;

/// Answers the lines of a script in a mode.
#[derive(Drop)]
pub struct ModeSession<M: Moded + Drop> {
    /// What answers each line.
    pub inner: M,
    /// How many lines were given.
    pub lines: u64,
}

impl<M: Moded + Drop> ModeSession<M> {
    /// A session of what is ready for its first line, with no line given.
    pub fn make(inner: M) -> ModeSession<M>
        requires { M.ready inner }
        ensures inner { result.inner ≡ inner }
        ensures lines { result.lines ≡ 0 }
    {
        ModeSession { inner, lines: 0 }
    }
}

impl<M: Moded + Drop> Lines for ModeSession<M> {
    ghost State = { M.State };

    ghost state = { λ s. M.state s.inner };

    ghost number = { λ s. s.lines };

    ghost ready = { λ s. M.ready s.inner };

    ghost step = { ModeStep M.MODE M.own M.other };

    ghost long_lines = { ModeStep-long M.MODE M.own M.other M.long_lines };

    fn line(&mut self, alloc: Global, bytes: &[u8]) -> Turn {
        self.lines += 1;
        match own_line(M::MODE, bytes) {
            Some(form) => self.inner.own(alloc, self.lines, bytes, &form),
            None => self.inner.other(alloc, self.lines, bytes),
        }
    }
}

// What a line says as one of the mode's own.
fn own_line(mode: Mode, bytes: &[u8]) -> Option<ModeLine>
    ensures { result ≡ own_line mode bytes.now }
{
    if bytes.len() <= LONGEST_LINE {
        mode_line(mode, bytes)
    } else {
        None
    }
}
