// Replies that the modes share.
ghost use Rattle.std.specs.Prelude.{◌≡◌, IfOk};
ghost use Rattle.tmm_model.specs.Modes.{own_no, own_ok};

use crate::words::begun;
use std::alloc::Global;
use tmm_model::{ModeCause, NoMemory, Seq};

/// The reply that a line of a mode's own is done: `ok` alone.
pub fn reply_mode_ok(alloc: Global, line: u64) -> Result<Seq<u8>, NoMemory>
    ensures { IfOk result (λ bytes. bytes.items ≡ own_ok line) }
{
    begun(alloc, line, b"ok\n")
}

/// The reply to a line that is refused for a cause of the mode's: `no` and the cause.
pub fn reply_mode_no(alloc: Global, line: u64, cause: ModeCause) -> Result<Seq<u8>, NoMemory>
    ensures { IfOk result (λ bytes. bytes.items ≡ own_no line cause) }
{
    match cause {
        ModeCause::LimitSuppose => begun(alloc, line, b"no limit suppose\n"),
        ModeCause::Suppose => begun(alloc, line, b"no suppose\n"),
        ModeCause::Agent => begun(alloc, line, b"no agent\n"),
        ModeCause::LimitBatch => begun(alloc, line, b"no limit batch\n"),
        ModeCause::LimitAgents => begun(alloc, line, b"no limit agents\n"),
    }
}
